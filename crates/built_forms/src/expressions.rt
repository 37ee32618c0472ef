//! The built forms of expressions.

ghost use Rattle.std.specs.Prelude.{◌≡◌, IfOk};
ghost use Rattle.built_forms.specs.Built as means;

use crate::forms::{Expr, Operand, Primary};
use crate::words::{name, spot};
use b4_core::BinOp;
use std::alloc::{AllocError, Global};
use sv_source::Token;
use sv_tree::{BinaryOperator, QualifiedName, Select, UnaryOperator};

/// Whether a name stands without a package, selects and a cast.
fn is_alone(of: &QualifiedName, selects: &[Select], has_cast: bool) -> bool
    ensures { result ≡ means.is_alone of.now selects.now has_cast }
{
    of.scope.is_none() && selects.is_empty() && !has_cast
}

/// A name that stands alone.
fn plain_name(
    alloc: Global,
    tokens: &[Token],
    of: &QualifiedName,
    selects: &[Select],
    has_cast: bool,
) -> Result<Option<Primary>, AllocError>
    ensures { IfOk result (λ p. p ≡ means.primary_with tokens.now of.now selects.now has_cast) }
{
    if !is_alone(of, selects, has_cast) {
        return Ok(None);
    }
    match name(alloc, tokens, of.name)? {
        Some(name) => Ok(Some(Primary::Name(name))),
        None => Ok(None),
    }
}

/// A sized literal.
fn literal(
    alloc: Global,
    tokens: &[Token],
    size: u32,
    digits: u32,
) -> Result<Option<Primary>, AllocError>
    ensures { IfOk result (λ p. p ≡ means.literal_of tokens.now size digits) }
{
    let Some(size) = spot(alloc, tokens, size)? else {
        return Ok(None);
    };
    let Some(digits) = spot(alloc, tokens, digits)? else {
        return Ok(None);
    };
    Ok(Some(Primary::Literal { size, digits }))
}

/// A name or a sized literal.
fn primary(
    alloc: Global,
    tokens: &[Token],
    expr: &sv_tree::Expr,
) -> Result<Option<Primary>, AllocError>
    ensures { IfOk result (λ p. p ≡ means.primary_of tokens.now expr.now) }
{
    match expr {
        sv_tree::Expr::Sized { size, digits } => literal(alloc, tokens, *size, *digits),
        sv_tree::Expr::Name { of, selects, cast } => {
            plain_name(alloc, tokens, of, selects.as_slice(), cast.is_some())
        }
        _ => Ok(None),
    }
}

/// The bitwise negation of a primary.
fn inverted(
    alloc: Global,
    tokens: &[Token],
    operator: UnaryOperator,
    operand: &sv_tree::Expr,
) -> Result<Option<Operand>, AllocError>
    ensures { IfOk result (λ a. a ≡ means.inverted_of tokens.now operator operand.now) }
{
    match operator {
        UnaryOperator::Invert => match primary(alloc, tokens, operand)? {
            Some(primary) => Ok(Some(Operand {
                inverted: true,
                primary,
            })),
            None => Ok(None),
        },
        _ => Ok(None),
    }
}

/// A primary alone.
fn plain(
    alloc: Global,
    tokens: &[Token],
    expr: &sv_tree::Expr,
) -> Result<Option<Operand>, AllocError>
    ensures { IfOk result (λ a. a ≡ means.plain_of tokens.now expr.now) }
{
    match primary(alloc, tokens, expr)? {
        Some(primary) => Ok(Some(Operand {
            inverted: false,
            primary,
        })),
        None => Ok(None),
    }
}

/// A primary, or its bitwise negation.
fn operand(
    alloc: Global,
    tokens: &[Token],
    expr: &sv_tree::Expr,
) -> Result<Option<Operand>, AllocError>
    ensures { IfOk result (λ a. a ≡ means.operand_of tokens.now expr.now) }
{
    match expr {
        sv_tree::Expr::Unary {
            operator,
            operand,
            ..
        } => inverted(alloc, tokens, *operator, operand.get()),
        _ => plain(alloc, tokens, expr),
    }
}

/// The operator of a built form, if it is one.
fn bitwise(operator: BinaryOperator) -> Option<BinOp>
    ensures { result ≡ means.bitwise operator }
{
    match operator {
        BinaryOperator::And => Some(BinOp::And),
        BinaryOperator::Or => Some(BinOp::Or),
        BinaryOperator::Xor => Some(BinOp::Xor),
        _ => None,
    }
}

/// An operator between two operands.
fn binary(
    alloc: Global,
    tokens: &[Token],
    operator: BinaryOperator,
    left: &sv_tree::Expr,
    right: &sv_tree::Expr,
) -> Result<Option<Expr>, AllocError>
    ensures { IfOk result (λ x. x ≡ means.binary_of tokens.now operator left.now right.now) }
{
    let Some(op) = bitwise(operator) else {
        return Ok(None);
    };
    let Some(left) = operand(alloc, tokens, left)? else {
        return Ok(None);
    };
    let Some(right) = operand(alloc, tokens, right)? else {
        return Ok(None);
    };
    Ok(Some(Expr::Binary { op, left, right }))
}

/// An operand alone.
fn single(alloc: Global, tokens: &[Token], expr: &sv_tree::Expr) -> Result<Option<Expr>, AllocError>
    ensures { IfOk result (λ x. x ≡ means.single_of tokens.now expr.now) }
{
    match operand(alloc, tokens, expr)? {
        Some(operand) => Ok(Some(Expr::Single(operand))),
        None => Ok(None),
    }
}

/// An expression of one or two operands.
pub fn expr(
    alloc: Global,
    tokens: &[Token],
    expr: &sv_tree::Expr,
) -> Result<Option<Expr>, AllocError>
    ensures { IfOk result (λ x. x ≡ means.expr_of tokens.now expr.now) }
{
    match expr {
        sv_tree::Expr::Binary {
            left,
            operator,
            right,
            ..
        } => binary(alloc, tokens, *operator, left.get(), right.get()),
        _ => single(alloc, tokens, expr),
    }
}
