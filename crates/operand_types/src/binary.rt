//! Operators between two operands.

ghost use Rattle.std.specs.Prelude.{◌≡◌, ◌++◌, ◌∷◌, [], IfOk};
ghost use Rattle.expr_type.specs.Answers.{Gives, source};
ghost use Rattle.expr_type.specs.Operands.{too_wide, width};
ghost use Rattle.expr_type.specs.Operators as operator;
ghost use Rattle.expr_type.specs.Operators.{over, both_wide};
ghost use Rattle.expr_type.specs.Typings.{at_all};
ghost use Rattle.sv_types.specs.declared.expression.Form.TheVariants.{Either, Both};
ghost use Rattle.operand_types.specs.Allowed.{Allows, IsNarrow};

use crate::makes::{Parts, by_itself, in_context, valued};
use crate::operands::{
    MOST_ARITHMETIC, Operands, Pair, allowed_in, around_operator, beside, both_type, both_wide,
    is_unpacked_pair, raised, same_type, shifted, width_of_operand,
};
use b4_core::{BinOp, EqOp, OrdOp, ShiftOp};
use expr_type::{BinaryKind, BinaryOperator, Halt, Source, Valued};
use std::alloc::{AllocError, Global};
use sv_types::{Form, SvType};
use type_kinds::one_bit;

/// The row of table 11-21 by which an operator is typed.
pub fn binary_kind(op: BinaryOperator) -> BinaryKind
    ensures { result ≡ operator.binary_kind op }
{
    match op {
        BinaryOperator::LogicalOr => BinaryKind::Either,
        BinaryOperator::LogicalAnd => BinaryKind::Both,
        BinaryOperator::Or => BinaryKind::Bitwise(BinOp::Or),
        BinaryOperator::Xor => BinaryKind::Bitwise(BinOp::Xor),
        BinaryOperator::Xnor => BinaryKind::Bitwise(BinOp::Xnor),
        BinaryOperator::And => BinaryKind::Bitwise(BinOp::And),
        BinaryOperator::Equal => equality_kind(EqOp::Logic, false),
        BinaryOperator::NotEqual => equality_kind(EqOp::Logic, true),
        BinaryOperator::CaseEqual => equality_kind(EqOp::Case, false),
        BinaryOperator::CaseNotEqual => equality_kind(EqOp::Case, true),
        BinaryOperator::WildcardEqual => equality_kind(EqOp::Wild, false),
        BinaryOperator::WildcardNotEqual => equality_kind(EqOp::Wild, true),
        BinaryOperator::Less => BinaryKind::Order(OrdOp::Less),
        BinaryOperator::LessOrEqual => BinaryKind::Order(OrdOp::LessEqual),
        BinaryOperator::Greater => BinaryKind::Order(OrdOp::Greater),
        BinaryOperator::GreaterOrEqual => BinaryKind::Order(OrdOp::GreaterEqual),
        BinaryOperator::ShiftLeft => BinaryKind::Shift(ShiftOp::Left),
        BinaryOperator::ShiftRight => BinaryKind::Shift(ShiftOp::Right),
        BinaryOperator::ArithmeticShiftLeft => BinaryKind::Shift(ShiftOp::Left),
        BinaryOperator::ArithmeticShiftRight => BinaryKind::Shift(ShiftOp::Arith),
        BinaryOperator::Add => BinaryKind::Arithmetic(BinOp::Add),
        BinaryOperator::Subtract => BinaryKind::Arithmetic(BinOp::Sub),
        BinaryOperator::Multiply => BinaryKind::Arithmetic(BinOp::Mul),
        BinaryOperator::Divide => BinaryKind::Arithmetic(BinOp::Div),
        BinaryOperator::Remainder => BinaryKind::Arithmetic(BinOp::Rem),
        BinaryOperator::Power => BinaryKind::Power,
    }
}

fn equality_kind(op: EqOp, negated: bool) -> BinaryKind
    ensures { result ≡ BinaryKind.Equality op negated }
{
    BinaryKind::Equality { op, negated }
}

// `||`
fn either(alloc: Global, text: Source<'_>, parts: Operands) -> Result<Valued, Halt>
    ensures value { Gives result (operator.logical Either (source text.entry) parts.left parts.right) }
    ensures narrow { IfOk result IsNarrow }
{
    let first = parts.left.begins;
    let Pair { left, right, .. } = beside(alloc, parts)?;
    Ok(by_itself(alloc, text, first, one_bit(), Form::Either(left, right))?)
}

// `&&`
fn both(alloc: Global, text: Source<'_>, parts: Operands) -> Result<Valued, Halt>
    ensures value { Gives result (operator.logical Both (source text.entry) parts.left parts.right) }
    ensures narrow { IfOk result IsNarrow }
{
    let first = parts.left.begins;
    let Pair { left, right, .. } = beside(alloc, parts)?;
    Ok(by_itself(alloc, text, first, one_bit(), Form::Both(left, right))?)
}

// An operator of a type on bits or numbers.
fn binary_parts(op: BinOp, of: SvType, pair: Pair) -> Parts
    ensures { result ≡ record { of = of; form = Form.Binary op pair.left pair.right; arithmetic = pair.arithmetic } }
{
    let Pair {
        left,
        right,
        arithmetic,
    } = pair;
    Parts {
        of,
        form: Form::Binary(op, left, right),
        arithmetic,
    }
}

fn bitwise(alloc: Global, text: Source<'_>, op: BinOp, parts: Operands) -> Result<Valued, Halt>
    requires left { IsNarrow parts.left }
    requires right { IsNarrow parts.right }
    ensures value { Gives result (operator.bitwise op (source text.entry) parts.left parts.right) }
    ensures narrow { IfOk result IsNarrow }
{
    let first = parts.left.begins;
    let of = both_type(alloc, &parts);
    let (of, pair) = pairs::both(of, beside(alloc, parts))?;
    in_context(alloc, text, first, binary_parts(op, of, pair))
}

fn arithmetic(
    alloc: Global,
    text: Source<'_>,
    op: BinOp,
    at: u32,
    parts: Operands,
) -> Result<Valued, Halt>
    requires left { IsNarrow parts.left }
    requires right { IsNarrow parts.right }
    ensures value { Gives result (operator.arithmetic op (source text.entry) at parts.left parts.right) }
    ensures narrow { IfOk result IsNarrow }
{
    let first = parts.left.begins;
    let of = both_type(alloc, &parts);
    let (of, pair) = pairs::both(of, around_operator(alloc, at, parts))?;
    in_context(alloc, text, first, binary_parts(op, of, pair))
}

// An equality or its negation.
fn equal(op: EqOp, negated: bool, pair: Pair) -> Form
    ensures { result ≡ Form.Equal op negated pair.left pair.right }
{
    let Pair { left, right, .. } = pair;
    Form::Equal {
        op,
        negated,
        left,
        right,
    }
}

#[tactic(auto, using(crate::proofs::Allowing::allowed))]
fn equality(
    alloc: Global,
    text: Source<'_>,
    op: EqOp,
    negated: bool,
    parts: Operands,
) -> Result<Valued, Halt>
    requires left { IsNarrow parts.left }
    requires right { IsNarrow parts.right }
    ensures value { Gives result (operator.equality op negated (source text.entry) parts.left parts.right) }
    ensures narrow { IfOk result IsNarrow }
{
    let first = parts.left.begins;
    let width = both_wide(&parts);
    let pair = beside(alloc, parts)?;
    allowed_in(text, width, &pair.arithmetic)?;
    let form = equal(op, negated, pair);
    Ok(by_itself(alloc, text, first, one_bit(), form)?)
}

// A comparison by order.
fn ordered(op: OrdOp, pair: Pair) -> Form
    ensures { result ≡ Form.Order op pair.left pair.right }
{
    let Pair { left, right, .. } = pair;
    Form::Order(op, left, right)
}

#[tactic(auto, using(crate::proofs::Allowing::allowed))]
fn order(
    alloc: Global,
    text: Source<'_>,
    op: OrdOp,
    at: u32,
    parts: Operands,
) -> Result<Valued, Halt>
    requires left { IsNarrow parts.left }
    requires right { IsNarrow parts.right }
    ensures value { Gives result (operator.order op (source text.entry) at parts.left parts.right) }
    ensures narrow { IfOk result IsNarrow }
{
    let first = parts.left.begins;
    let width = both_wide(&parts);
    let pair = around_operator(alloc, at, parts)?;
    allowed_in(text, width, &pair.arithmetic)?;
    let form = ordered(op, pair);
    Ok(by_itself(alloc, text, first, one_bit(), form)?)
}

// A shift of a type.
fn shift_parts(op: ShiftOp, of: SvType, pair: Pair) -> Parts
    ensures { result ≡ record { of = of; form = Form.Shift op pair.left pair.right; arithmetic = pair.arithmetic } }
{
    let Pair {
        left,
        right,
        arithmetic,
    } = pair;
    Parts {
        of,
        form: Form::Shift(op, left, right),
        arithmetic,
    }
}

fn shift(alloc: Global, text: Source<'_>, op: ShiftOp, parts: Operands) -> Result<Valued, Halt>
    requires left { IsNarrow parts.left }
    ensures value { Gives result (operator.shift op (source text.entry) parts.left parts.right) }
    ensures narrow { IfOk result IsNarrow }
{
    let first = parts.left.begins;
    let of = same_type(alloc, &parts.left.expr);
    let (of, pair) = pairs::both(of, shifted(alloc, parts))?;
    in_context(alloc, text, first, shift_parts(op, of, pair))
}

// The operands of a power, of which the right one is valued alone, and the operators that aren't too wide.
#[tactic(auto, using(crate::proofs::Allowing::powers))]
fn power_allowed(text: Source<'_>, at: u32, parts: &Operands) -> Result<(), Halt>
    requires left { IsNarrow parts.now.left }
    requires right { IsNarrow parts.now.right }
    ensures { Allows result (at_all (source text.entry).instance 502 (too_wide (width parts.now.left) parts.now.left.arithmetic ++ over at (both_wide parts.now.left parts.now.right))) }
{
    allowed_in(text, width_of_operand(&parts.left), &parts.left.arithmetic)?;
    if MOST_ARITHMETIC < both_wide(parts) {
        return Err(Halt::Breaks { at: at, rule: 502 });
    }
    Ok(())
}

// A power of a type.
fn power_parts(of: SvType, pair: Pair) -> Parts
    ensures { result ≡ record { of = of; form = Form.Power pair.left pair.right; arithmetic = pair.arithmetic } }
{
    let Pair {
        left,
        right,
        arithmetic,
    } = pair;
    Parts {
        of,
        form: Form::Power(left, right),
        arithmetic,
    }
}

// `**` over operands that it may have.
fn raise(alloc: Global, text: Source<'_>, at: u32, parts: Operands) -> Result<Valued, AllocError>
    requires { IsNarrow parts.left }
    ensures value { IfOk result (λ v. v ≡ operator.valued (source text.entry) parts.left.begins (operator.same_type parts.left) (Form.Power parts.left.expr parts.right.expr) (parts.left.arithmetic ++ at ∷ [])) }
    ensures narrow { IfOk result IsNarrow }
{
    let first = parts.left.begins;
    let of = same_type(alloc, &parts.left.expr);
    let (of, pair) = pairs::both(of, raised(alloc, at, parts))?;
    valued(alloc, text, first, power_parts(of, pair))
}

// `**`
#[tactic(auto, using(crate::proofs::Allowing::allowed))]
fn power(alloc: Global, text: Source<'_>, at: u32, parts: Operands) -> Result<Valued, Halt>
    requires left { IsNarrow parts.left }
    requires right { IsNarrow parts.right }
    ensures value { Gives result (operator.power (source text.entry) at parts.left parts.right) }
    ensures narrow { IfOk result IsNarrow }
{
    match power_allowed(text, at, &parts) {
        Err(halt) => Err(halt),
        Ok(()) => Ok(raise(alloc, text, at, parts)?),
    }
}

fn by_kind(
    alloc: Global,
    text: Source<'_>,
    kind: BinaryKind,
    at: u32,
    parts: Operands,
) -> Result<Valued, Halt>
    requires left { IsNarrow parts.left }
    requires right { IsNarrow parts.right }
    ensures value { Gives result (operator.by_kind kind (source text.entry) at parts.left parts.right) }
    ensures narrow { IfOk result IsNarrow }
{
    match kind {
        BinaryKind::Either => either(alloc, text, parts),
        BinaryKind::Both => both(alloc, text, parts),
        BinaryKind::Bitwise(op) => bitwise(alloc, text, op, parts),
        BinaryKind::Arithmetic(op) => arithmetic(alloc, text, op, at, parts),
        BinaryKind::Equality { op, negated } => equality(alloc, text, op, negated, parts),
        BinaryKind::Order(op) => order(alloc, text, op, at, parts),
        BinaryKind::Shift(op) => shift(alloc, text, op, parts),
        BinaryKind::Power => power(alloc, text, at, parts),
    }
}

// An operator at a token between two operands.
fn operated(
    alloc: Global,
    text: Source<'_>,
    op: BinaryOperator,
    at: u32,
    parts: Operands,
) -> Result<Valued, Halt>
    requires left { IsNarrow parts.left }
    requires right { IsNarrow parts.right }
    ensures value { Gives result (operator.binary_of op (source text.entry) at parts.left parts.right) }
    ensures narrow { IfOk result IsNarrow }
{
    if is_unpacked_pair(&parts) {
        return Err(Halt::Breaks { at: at, rule: 508 });
    }
    by_kind(alloc, text, binary_kind(op), at, parts)
}

/// An operator at a token between two operands of at most 2^22 bits (IEEE 1800-2017 table 11-21). It breaks E508 where an
/// operand is unpacked, and E502, at the first operator in the order of the text, where one does arithmetic or compares by order
/// at more than 128 bits.
pub fn binary_of(
    alloc: Global,
    text: Source<'_>,
    op: BinaryOperator,
    at: u32,
    l: Valued,
    r: Valued,
) -> Result<Valued, Halt>
    requires left { IsNarrow l }
    requires right { IsNarrow r }
    ensures value { Gives result (operator.binary_of op (source text.entry) at l r) }
    ensures narrow { IfOk result IsNarrow }
{
    operated(alloc, text, op, at, Operands { left: l, right: r })
}
