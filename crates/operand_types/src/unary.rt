//! Operators before an operand.

ghost use Rattle.std.specs.Prelude.{◌≡◌, ◌≤◌, ◌∷◌, IfOk, false};
ghost use Rattle.expr_type.specs.Answers.{Gives, source};
ghost use Rattle.expr_type.specs.Operators as operator;
ghost use Rattle.expr_type.specs.Shapes.{sign_of, vector};
ghost use Rattle.sv_types.specs.Layouts.{width_of};
ghost use Rattle.operand_types.specs.Allowed.{IsNarrow};

use crate::makes::{Parts, by_itself, in_context};
use crate::operands::same_type;
use b4_core::{RedOp, UnOp};
use expr_type::{Halt, Source, UnaryKind, UnaryOperator, Valued};
use std::alloc::{AllocError, Global};
use sv_source::{Boxed, Items};
use sv_types::{Expr, Form};
use type_kinds::{enum_of, is_unpacked, one_bit};

/// The row of table 11-21 by which an operator is typed.
pub fn unary_kind(op: UnaryOperator) -> UnaryKind
    ensures { result ≡ operator.unary_kind op }
{
    match op {
        UnaryOperator::Plus => UnaryKind::Plus,
        UnaryOperator::Minus => UnaryKind::Minus,
        UnaryOperator::Not => UnaryKind::Negation,
        UnaryOperator::Invert => UnaryKind::Inversion,
        UnaryOperator::ReduceAnd => UnaryKind::Reduction(RedOp::And),
        UnaryOperator::ReduceNand => UnaryKind::Reduction(RedOp::Nand),
        UnaryOperator::ReduceOr => UnaryKind::Reduction(RedOp::Or),
        UnaryOperator::ReduceNor => UnaryKind::Reduction(RedOp::Nor),
        UnaryOperator::ReduceXor => UnaryKind::Reduction(RedOp::Xor),
        UnaryOperator::ReduceXnor => UnaryKind::Reduction(RedOp::Xnor),
    }
}

// An operand with a token in front of it.
fn moved_to(at: u32, v: Valued) -> Valued
    ensures { result ≡ record v { first = at; begins = at; is_unsized = false } }
{
    let Valued {
        expr,
        arithmetic,
        ..
    } = v;
    Valued {
        first: at,
        begins: at,
        is_unsized: false,
        expr,
        arithmetic,
    }
}

// `+`, which gives its operand; of an enum it gives the vector of its bits.
fn plus(alloc: Global, text: Source<'_>, at: u32, v: Valued) -> Result<Valued, Halt>
    requires { IsNarrow v }
    ensures value { Gives result (operator.plus (source text.entry) at v) }
    ensures narrow { IfOk result IsNarrow }
{
    match enum_of(&v.expr.of) {
        None => Ok(moved_to(at, v)),
        Some(_) => Ok(as_vector(alloc, text, at, v)?),
    }
}

// An operand as the vector of its bits.
fn as_vector(alloc: Global, text: Source<'_>, at: u32, v: Valued) -> Result<Valued, AllocError>
    requires { IsNarrow v }
    ensures value { IfOk result (λ u. u ≡ operator.bits_alone (source text.entry) at v) }
    ensures narrow { IfOk result IsNarrow }
{
    let of = same_type(alloc, &v.expr)?;
    let inner = Boxed::new(alloc, v.expr)?;
    by_itself(alloc, text, at, of, Form::Cast(inner))
}

// Operators with one in front.
fn behind_operator(alloc: Global, at: u32, arithmetic: Items<u32>) -> Result<Items<u32>, AllocError>
    ensures { IfOk result (λ all. all ≡ at ∷ arithmetic) }
{
    let mut all = Items::new(alloc);
    all.push(at)?;
    all.append(arithmetic)?;
    Ok(all)
}

// An operand with an operator in front, and the operators in both, in a context.
fn operated(
    alloc: Global,
    text: Source<'_>,
    op: UnOp,
    at: u32,
    e: Expr,
    arithmetic: Items<u32>,
) -> Result<Valued, Halt>
    requires { width_of e.of ≤ 4194304 }
    ensures value { Gives result (operator.in_context (source text.entry) at (vector (width_of e.of) (sign_of e.of)) (Form.Unary op e) arithmetic) }
    ensures narrow { IfOk result IsNarrow }
{
    let of = same_type(alloc, &e)?;
    let inner = Boxed::new(alloc, e)?;
    let form = Form::Unary(op, inner);
    in_context(
        alloc,
        text,
        at,
        Parts {
            of,
            form,
            arithmetic,
        },
    )
}

fn minus(alloc: Global, text: Source<'_>, at: u32, v: Valued) -> Result<Valued, Halt>
    requires { IsNarrow v }
    ensures value { Gives result (operator.minus (source text.entry) at v) }
    ensures narrow { IfOk result IsNarrow }
{
    let arithmetic = behind_operator(alloc, at, v.arithmetic)?;
    operated(alloc, text, UnOp::Neg, at, v.expr, arithmetic)
}

fn inversion(alloc: Global, text: Source<'_>, at: u32, v: Valued) -> Result<Valued, Halt>
    requires { IsNarrow v }
    ensures value { Gives result (operator.inversion (source text.entry) at v) }
    ensures narrow { IfOk result IsNarrow }
{
    operated(alloc, text, UnOp::Not, at, v.expr, v.arithmetic)
}

// `!`
fn negation(alloc: Global, text: Source<'_>, at: u32, v: Valued) -> Result<Valued, Halt>
    ensures value { Gives result (operator.negation (source text.entry) at v) }
    ensures narrow { IfOk result IsNarrow }
{
    let inner = Boxed::new(alloc, v.expr)?;
    Ok(by_itself(alloc, text, at, one_bit(), Form::Negate(inner))?)
}

fn reduction(alloc: Global, text: Source<'_>, op: RedOp, at: u32, v: Valued) -> Result<Valued, Halt>
    ensures value { Gives result (operator.reduction op (source text.entry) at v) }
    ensures narrow { IfOk result IsNarrow }
{
    let inner = Boxed::new(alloc, v.expr)?;
    Ok(by_itself(alloc, text, at, one_bit(), Form::Reduce(op, inner))?)
}

fn by_kind(
    alloc: Global,
    text: Source<'_>,
    kind: UnaryKind,
    at: u32,
    v: Valued,
) -> Result<Valued, Halt>
    requires { IsNarrow v }
    ensures value { Gives result (operator.by_prefix kind (source text.entry) at v) }
    ensures narrow { IfOk result IsNarrow }
{
    match kind {
        UnaryKind::Plus => plus(alloc, text, at, v),
        UnaryKind::Minus => minus(alloc, text, at, v),
        UnaryKind::Negation => negation(alloc, text, at, v),
        UnaryKind::Inversion => inversion(alloc, text, at, v),
        UnaryKind::Reduction(op) => reduction(alloc, text, op, at, v),
    }
}

/// An operator at a token before an operand of at most 2^22 bits (IEEE 1800-2017 table 11-21). It breaks E508 where the operand
/// is unpacked, and E502, at the first operator in the order of the text, where one does arithmetic at more than 128 bits.
pub fn unary_of(
    alloc: Global,
    text: Source<'_>,
    op: UnaryOperator,
    at: u32,
    v: Valued,
) -> Result<Valued, Halt>
    requires { IsNarrow v }
    ensures value { Gives result (operator.unary_of op (source text.entry) at v) }
    ensures narrow { IfOk result IsNarrow }
{
    if is_unpacked(&v.expr.of) {
        return Err(Halt::Breaks { at: at, rule: 508 });
    }
    by_kind(alloc, text, unary_kind(op), at, v)
}
