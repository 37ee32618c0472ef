//! What is kept of operations (IEEE 1364-2005 clause 5.4.1, table 5-22).

ghost use Rattle.std.specs.Prelude.{◌≡◌};
ghost use Rattle.v_tree.specs.ExprRules.{kind_of, spreads, is_negative};
ghost use Rattle.v_expr_rules.specs.Seen as means;
ghost use Rattle.v_expr_rules.specs.Operations.{kind};

use crate::numbers::{earlier, mark, plus};
use crate::seen::{Seen, alone, in_context, is_wide, operand};
use v_tree::{VBinaryOp, VUnaryOp};

/// The kinds of operators by which widths are told.
#[derive(Clone, Copy, Drop)]
pub enum Operation {
    /// `+ - * / %`
    Arithmetic,
    /// `**`
    Power,
    /// `<< >> <<< >>>`
    Shift,
    /// `< <= > >=`
    Order,
    /// `== != === !==`
    Equality,
    /// `& | ^ ~^`
    Bitwise,
    /// `&& ||`
    Logical,
}

/// The kind of an operator.
pub(crate) fn kind_of(op: VBinaryOp) -> Operation
    ensures { kind result ≡ kind_of op }
{
    match op {
        VBinaryOp::Add => Operation::Arithmetic,
        VBinaryOp::Sub => Operation::Arithmetic,
        VBinaryOp::Mul => Operation::Arithmetic,
        VBinaryOp::Div => Operation::Arithmetic,
        VBinaryOp::Rem => Operation::Arithmetic,
        VBinaryOp::Power => Operation::Power,
        VBinaryOp::ShiftLeft => Operation::Shift,
        VBinaryOp::ShiftRight => Operation::Shift,
        VBinaryOp::ArithmeticLeft => Operation::Shift,
        VBinaryOp::ArithmeticRight => Operation::Shift,
        VBinaryOp::Less => Operation::Order,
        VBinaryOp::LessEqual => Operation::Order,
        VBinaryOp::Greater => Operation::Order,
        VBinaryOp::GreaterEqual => Operation::Order,
        VBinaryOp::Equal => Operation::Equality,
        VBinaryOp::NotEqual => Operation::Equality,
        VBinaryOp::CaseEqual => Operation::Equality,
        VBinaryOp::CaseNotEqual => Operation::Equality,
        VBinaryOp::And => Operation::Bitwise,
        VBinaryOp::Or => Operation::Bitwise,
        VBinaryOp::Xor => Operation::Bitwise,
        VBinaryOp::Xnor => Operation::Bitwise,
        VBinaryOp::LogicalAnd => Operation::Logical,
        VBinaryOp::LogicalOr => Operation::Logical,
    }
}

fn operation_bits(o: Operation, l: u32, r: u32) -> u32
    ensures { result ≡ means.operation_bits (kind o) l r }
{
    match o {
        Operation::Arithmetic => l.max(r),
        Operation::Power => l,
        Operation::Shift => l,
        Operation::Order => 1,
        Operation::Equality => 1,
        Operation::Bitwise => l.max(r),
        Operation::Logical => 1,
    }
}

// Whether the left operand is valued in over 128 bits.
fn left_wide(o: Operation, w: bool, l: bool, r: bool) -> bool
    ensures { result ≡ means.left_wide (kind o) w l r }
{
    match o {
        Operation::Arithmetic => w,
        Operation::Power => w,
        Operation::Shift => w,
        Operation::Order => l || r,
        Operation::Equality => l || r,
        Operation::Bitwise => w,
        Operation::Logical => l,
    }
}

// Whether the right operand is.
fn right_wide(o: Operation, w: bool, l: bool, r: bool) -> bool
    ensures { result ≡ means.right_wide (kind o) w l r }
{
    match o {
        Operation::Arithmetic => w,
        Operation::Power => r,
        Operation::Shift => r,
        Operation::Order => l || r,
        Operation::Equality => l || r,
        Operation::Bitwise => w,
        Operation::Logical => r,
    }
}

// Whether the operation is done on over 128 bits and mustn't be.
fn is_too_wide(o: Operation, w: bool, l: bool, r: bool) -> bool
    ensures { result ≡ means.is_too_wide (kind o) w l r }
{
    match o {
        Operation::Arithmetic => w,
        Operation::Power => w || r,
        Operation::Shift => false,
        Operation::Order => l || r,
        Operation::Equality => false,
        Operation::Bitwise => false,
        Operation::Logical => false,
    }
}

fn binary_first(o: Operation, w: bool, a: Seen, b: Seen, token: u32) -> Option<u32>
    ensures { result ≡ means.binary_first (kind o) w a b token }
{
    let l = is_wide(a.width);
    let r = is_wide(b.width);
    earlier(
        in_context(a, left_wide(o, w, l, r)),
        earlier(
            mark(is_too_wide(o, w, l, r), token),
            in_context(b, right_wide(o, w, l, r)),
        ),
    )
}

/// An operation on two operands, which begins at a token.
pub(crate) fn binary_seen(o: Operation, a: Seen, b: Seen, at: u32) -> Seen
    ensures { result ≡ means.binary_seen (kind o) a b at }
{
    let token = plus(at, a.size);
    operand(
        plus(a.size, plus(1, b.size)),
        operation_bits(o, a.width, b.width),
        binary_first(o, false, a, b, token),
        binary_first(o, true, a, b, token),
    )
}

fn spreads(op: VUnaryOp) -> bool
    ensures { result ≡ spreads op }
{
    match op {
        VUnaryOp::Not => true,
        VUnaryOp::LogicalNot => false,
        VUnaryOp::Neg => true,
        VUnaryOp::And => false,
        VUnaryOp::Nand => false,
        VUnaryOp::Or => false,
        VUnaryOp::Nor => false,
        VUnaryOp::Xor => false,
        VUnaryOp::Xnor => false,
    }
}

fn is_negative(op: VUnaryOp) -> bool
    ensures { result ≡ is_negative op }
{
    match op {
        VUnaryOp::Not => false,
        VUnaryOp::LogicalNot => false,
        VUnaryOp::Neg => true,
        VUnaryOp::And => false,
        VUnaryOp::Nand => false,
        VUnaryOp::Or => false,
        VUnaryOp::Nor => false,
        VUnaryOp::Xor => false,
        VUnaryOp::Xnor => false,
    }
}

fn unary_first(spread: bool, negative: bool, w: bool, a: Seen, at: u32) -> Option<u32>
    ensures { result ≡ means.unary_first spread negative w a at }
{
    earlier(
        mark(negative && w, at),
        in_context(a, if spread { w } else { is_wide(a.width) }),
    )
}

/// An operation on one operand, which begins at a token.
pub(crate) fn unary_seen(op: VUnaryOp, a: Seen, at: u32) -> Seen
    ensures { result ≡ means.unary_seen (spreads op) (is_negative op) a at }
{
    let spread = spreads(op);
    let negative = is_negative(op);
    operand(
        plus(1, a.size),
        if spread { a.width } else { 1 },
        unary_first(spread, negative, false, a, at),
        unary_first(spread, negative, true, a, at),
    )
}

/// A choice.
pub(crate) fn choose_seen(on: Seen, a: Seen, b: Seen) -> Seen
    ensures { result ≡ means.choose_seen on a b }
{
    operand(
        plus(on.size, plus(plus(1, a.size), plus(1, b.size))),
        a.width.max(b.width),
        earlier(alone(on), earlier(a.narrow, b.narrow)),
        earlier(alone(on), earlier(a.wide, b.wide)),
    )
}
