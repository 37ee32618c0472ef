//! Expressions (IEEE 1364-2005 clause 5).

ghost use Rattle.std.specs.Prelude.{◌≡◌, IfOk};
ghost use Rattle.v_meaning.specs.Values as means;
ghost use Rattle.v_meaning.specs.Values.{meaning, unary_meaning, binary_meaning};
ghost use Rattle.v_build.specs.Trees.{prim_meaning, meanings, comparison};

use crate::operators::{binary_op, comparison_op, order_op, reduction_op, shift_op, unary_op};
use b4_core::{BinOp, OrdOp, RedOp, ShiftOp, UnOp, Vec4};
use std::alloc::{AllocError, Global};
use sv_source::{Boxed, Text};
use v_tree::{VBinaryOp, VExpr, VExprs, VPrim, VUnaryOp};

/// An expression in parentheses.
fn parens(alloc: Global, e: VExpr) -> Result<VPrim, AllocError>
    ensures { IfOk result (λ p. prim_meaning p ≡ meaning e) }
{
    Ok(VPrim::Paren(Boxed::new(alloc, e)?))
}

/// An expression as an operand: itself if it is one, and else in parentheses.
fn operand(alloc: Global, e: VExpr) -> Result<VPrim, AllocError>
    ensures { IfOk result (λ p. prim_meaning p ≡ meaning e) }
{
    match e {
        VExpr::Prim(p) => Ok(p),
        VExpr::Unary { op, of } => parens(alloc, VExpr::Unary { op, of }),
        VExpr::Binary { op, left, right } => parens(alloc, VExpr::Binary { op, left, right }),
        VExpr::Choose { on, then, other } => parens(alloc, VExpr::Choose { on, then, other }),
    }
}

/// An operator before an operand.
fn prefix(alloc: Global, op: VUnaryOp, e: VExpr) -> Result<VExpr, AllocError>
    ensures { IfOk result (λ x. meaning x ≡ unary_meaning op (meaning e)) }
{
    let of = operand(alloc, e)?;
    Ok(VExpr::Unary { op, of })
}

/// An operator between two operands.
fn infix(alloc: Global, op: VBinaryOp, left: VExpr, right: VExpr) -> Result<VExpr, AllocError>
    ensures { IfOk result (λ x. meaning x ≡ binary_meaning op (meaning left) (meaning right)) }
{
    let (left, right) = pairs::both(operand(alloc, left), operand(alloc, right))?;
    Ok(VExpr::Binary { op, left, right })
}

/// A sized binary number of 1 to 128 bits, least first.
pub fn literal(bits: Vec4) -> VExpr
    ensures { meaning result ≡ means.literal bits }
{
    VExpr::Prim(VPrim::Number(bits))
}

/// `~e` or `-e`.
pub fn unary(alloc: Global, op: UnOp, e: VExpr) -> Result<VExpr, AllocError>
    ensures { IfOk result (λ x. meaning x ≡ means.unary op (meaning e)) }
{
    let made = prefix(alloc, unary_op(op), e)?;
    Ok(made)
}

/// The reduction of an operand.
pub fn reduce(alloc: Global, op: RedOp, e: VExpr) -> Result<VExpr, AllocError>
    ensures { IfOk result (λ x. meaning x ≡ means.reduce op (meaning e)) }
{
    let made = prefix(alloc, reduction_op(op), e)?;
    Ok(made)
}

/// `!e`
pub fn negate(alloc: Global, e: VExpr) -> Result<VExpr, AllocError>
    ensures { IfOk result (λ x. meaning x ≡ means.negate (meaning e)) }
{
    let made = prefix(alloc, VUnaryOp::LogicalNot, e)?;
    Ok(made)
}

/// An operation on two operands of one width.
pub fn binary(alloc: Global, op: BinOp, left: VExpr, right: VExpr) -> Result<VExpr, AllocError>
    ensures { IfOk result (λ x. meaning x ≡ means.binary op (meaning left) (meaning right)) }
{
    let made = infix(alloc, binary_op(op), left, right)?;
    Ok(made)
}

/// A shift, whose right operand is valued alone.
pub fn shift(alloc: Global, op: ShiftOp, left: VExpr, right: VExpr) -> Result<VExpr, AllocError>
    ensures { IfOk result (λ x. meaning x ≡ means.shift op (meaning left) (meaning right)) }
{
    let made = infix(alloc, shift_op(op), left, right)?;
    Ok(made)
}

/// `left ** right`
pub fn power(alloc: Global, left: VExpr, right: VExpr) -> Result<VExpr, AllocError>
    ensures { IfOk result (λ x. meaning x ≡ means.power (meaning left) (meaning right)) }
{
    let made = infix(alloc, VBinaryOp::Power, left, right)?;
    Ok(made)
}

/// A comparison by order.
pub fn order(alloc: Global, op: OrdOp, left: VExpr, right: VExpr) -> Result<VExpr, AllocError>
    ensures { IfOk result (λ x. meaning x ≡ means.order op (meaning left) (meaning right)) }
{
    let made = infix(alloc, order_op(op), left, right)?;
    Ok(made)
}

/// `==` or `===`, or the negated one of them.
pub fn compare(
    alloc: Global,
    exact: bool,
    negated: bool,
    left: VExpr,
    right: VExpr,
) -> Result<VExpr, AllocError>
    ensures { IfOk result (λ x. meaning x ≡ comparison exact negated (meaning left) (meaning right)) }
{
    let made = infix(alloc, comparison_op(exact, negated), left, right)?;
    Ok(made)
}

/// `left && right`
pub fn both(alloc: Global, left: VExpr, right: VExpr) -> Result<VExpr, AllocError>
    ensures { IfOk result (λ x. meaning x ≡ means.both (meaning left) (meaning right)) }
{
    let made = infix(alloc, VBinaryOp::LogicalAnd, left, right)?;
    Ok(made)
}

/// `left || right`
pub fn either(alloc: Global, left: VExpr, right: VExpr) -> Result<VExpr, AllocError>
    ensures { IfOk result (λ x. meaning x ≡ means.either (meaning left) (meaning right)) }
{
    let made = infix(alloc, VBinaryOp::LogicalOr, left, right)?;
    Ok(made)
}

/// Both arms of a choice.
#[derive(Drop)]
struct Arms {
    then: VPrim,
    other: VPrim,
}

/// Two expressions as operands.
fn both_arms(alloc: Global, then: VExpr, other: VExpr) -> Result<Arms, AllocError>
    ensures then { IfOk result (λ a. prim_meaning a.then ≡ meaning then) }
    ensures other { IfOk result (λ a. prim_meaning a.other ≡ meaning other) }
{
    let (then, other) = pairs::both(operand(alloc, then), operand(alloc, other))?;
    Ok(Arms { then, other })
}

/// A choice of operands.
fn choice(on: VPrim, arms: Arms) -> VExpr
    ensures { meaning result ≡ means.choose (prim_meaning on) (prim_meaning arms.then) (prim_meaning arms.other) }
{
    VExpr::Choose {
        on,
        then: arms.then,
        other: arms.other,
    }
}

/// `on ? then : other`
pub fn choose(alloc: Global, on: VExpr, then: VExpr, other: VExpr) -> Result<VExpr, AllocError>
    ensures { IfOk result (λ x. meaning x ≡ means.choose (meaning on) (meaning then) (meaning other)) }
{
    let (on, arms) = pairs::both(operand(alloc, on), both_arms(alloc, then, other))?;
    Ok(choice(on, arms))
}

/// `{items}`, the first most significant.
pub fn concatenation(items: VExprs) -> VExpr
    ensures { meaning result ≡ means.concatenation (meanings items) }
{
    VExpr::Prim(VPrim::Concat(items))
}

/// `{count{items}}`
pub fn repetition(count: u32, items: VExprs) -> VExpr
    ensures { meaning result ≡ means.repetition count (meanings items) }
{
    VExpr::Prim(VPrim::Repeat { count, items })
}

/// `$signed(e)` or `$unsigned(e)`.
pub fn signing(alloc: Global, signed: bool, e: VExpr) -> Result<VExpr, AllocError>
    ensures { IfOk result (λ x. meaning x ≡ means.signing signed (meaning e)) }
{
    let of = Boxed::new(alloc, e)?;
    Ok(VExpr::Prim(VPrim::Sign { signed, of }))
}

/// `function(args)`
pub fn call(function: Text, args: VExprs) -> VExpr
    ensures { meaning result ≡ means.call function (meanings args) }
{
    VExpr::Prim(VPrim::Call { function, args })
}
