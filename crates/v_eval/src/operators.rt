//! Operators on vectors (IEEE 1364-2005 clauses 5.1 and 5.5 and table 5-22).

ghost use Rattle.std.specs.Prelude.{◌≡◌, ◌≤◌, length, IfOk};
ghost use Rattle.v_eval.specs.Operators as means;

use crate::vectors::{combined, one_bit, ordered, powered, reduced, shifted, transformed};
use b4_core::{
    BinOp, Bit4, EqOp, OrdOp, RedOp, ShiftOp, UnOp, Vec4, both, either, equal, negate, truth,
};
use std::alloc::{AllocError, Global};
use v_tree::{VBinaryOp, VUnaryOp};

/// The width and the sign at which an expression is valued.
#[derive(Clone, Copy)]
pub struct Context {
    /// The width.
    pub width: usize,
    /// Whether it is signed.
    pub signed: bool,
}

/// What an operator before an operand does.
#[derive(Clone, Copy)]
pub enum Prefix {
    /// It gives a vector of the operand's width.
    Vector(UnOp),
    /// It gives the bit that stands between all bits of the operand.
    Reduction(RedOp),
    /// It gives the negated truth of the operand.
    Negation,
}

/// What an operator between two operands does.
#[derive(Clone, Copy)]
pub enum Infix {
    /// It gives a vector of the larger width of both.
    Vector(BinOp),
    /// It moves the bits of the left operand.
    Shift(ShiftOp),
    /// It raises the left operand to a power.
    Power,
    /// It compares two numbers by their order.
    Order(OrdOp),
    /// It compares two vectors.
    Equality {
        /// How they are compared.
        op: EqOp,
        /// Whether the answer is negated.
        negated: bool,
    },
    /// Both operands are true.
    Both,
    /// One of them is true.
    Either,
}

/// What an operator before an operand does.
pub fn prefix_of(op: VUnaryOp) -> Prefix
    ensures { result ≡ means.prefix_of op }
{
    match op {
        VUnaryOp::Not => Prefix::Vector(UnOp::Not),
        VUnaryOp::LogicalNot => Prefix::Negation,
        VUnaryOp::Neg => Prefix::Vector(UnOp::Neg),
        VUnaryOp::And => Prefix::Reduction(RedOp::And),
        VUnaryOp::Nand => Prefix::Reduction(RedOp::Nand),
        VUnaryOp::Or => Prefix::Reduction(RedOp::Or),
        VUnaryOp::Nor => Prefix::Reduction(RedOp::Nor),
        VUnaryOp::Xor => Prefix::Reduction(RedOp::Xor),
        VUnaryOp::Xnor => Prefix::Reduction(RedOp::Xnor),
    }
}

/// What an operator between two operands does.
pub fn infix_of(op: VBinaryOp) -> Infix
    ensures { result ≡ means.infix_of op }
{
    match op {
        VBinaryOp::Add => Infix::Vector(BinOp::Add),
        VBinaryOp::Sub => Infix::Vector(BinOp::Sub),
        VBinaryOp::Mul => Infix::Vector(BinOp::Mul),
        VBinaryOp::Div => Infix::Vector(BinOp::Div),
        VBinaryOp::Rem => Infix::Vector(BinOp::Rem),
        VBinaryOp::Power => Infix::Power,
        VBinaryOp::ShiftLeft => Infix::Shift(ShiftOp::Left),
        VBinaryOp::ShiftRight => Infix::Shift(ShiftOp::Right),
        VBinaryOp::ArithmeticLeft => Infix::Shift(ShiftOp::Left),
        VBinaryOp::ArithmeticRight => Infix::Shift(ShiftOp::Arith),
        VBinaryOp::Less => Infix::Order(OrdOp::Less),
        VBinaryOp::LessEqual => Infix::Order(OrdOp::LessEqual),
        VBinaryOp::Greater => Infix::Order(OrdOp::Greater),
        VBinaryOp::GreaterEqual => Infix::Order(OrdOp::GreaterEqual),
        VBinaryOp::Equal => Infix::Equality {
            op: EqOp::Logic,
            negated: false,
        },
        VBinaryOp::NotEqual => Infix::Equality {
            op: EqOp::Logic,
            negated: true,
        },
        VBinaryOp::CaseEqual => Infix::Equality {
            op: EqOp::Case,
            negated: false,
        },
        VBinaryOp::CaseNotEqual => Infix::Equality {
            op: EqOp::Case,
            negated: true,
        },
        VBinaryOp::And => Infix::Vector(BinOp::And),
        VBinaryOp::Or => Infix::Vector(BinOp::Or),
        VBinaryOp::Xor => Infix::Vector(BinOp::Xor),
        VBinaryOp::Xnor => Infix::Vector(BinOp::Xnor),
        VBinaryOp::LogicalAnd => Infix::Both,
        VBinaryOp::LogicalOr => Infix::Either,
    }
}

/// The width and the sign of an operation of one operand alone, by those of the operand.
pub fn prefix_own(op: Prefix, of: Context) -> Context
    ensures { result ≡ means.prefix_own op of }
{
    match op {
        Prefix::Vector(_) => of,
        Prefix::Reduction(_) => single(),
        Prefix::Negation => single(),
    }
}

/// At what its operand is valued.
pub fn prefix_context(op: Prefix, at: Context, of: Context) -> Context
    ensures { result ≡ means.prefix_context op at of }
{
    match op {
        Prefix::Vector(_) => at,
        Prefix::Reduction(_) => of,
        Prefix::Negation => of,
    }
}

/// What it gives, by what the operand is. Or want of memory.
#[tactic(auto, using(crate::proofs::Lengths::narrow))]
pub fn prefix_value(alloc: Global, op: Prefix, at: Context, v: &Vec4) -> Result<Vec4, AllocError>
    requires { means.prefix_most op (length v.now) ≤ 128 }
    ensures { IfOk result (λ r. r ≡ means.prefix_value op at v.now) }
{
    match op {
        Prefix::Vector(op) => transformed(alloc, op, v),
        Prefix::Reduction(op) => one_bit(alloc, reduced(op, v), at.width, at.signed),
        Prefix::Negation => one_bit(alloc, negate(truth(v)), at.width, at.signed),
    }
}

// One unsigned bit.
fn single() -> Context
    ensures { result ≡ means.single }
{
    Context {
        width: 1,
        signed: false,
    }
}

/// The larger width of both, signed where both are.
pub fn larger(left: Context, right: Context) -> Context
    ensures { result ≡ means.larger left right }
{
    Context {
        width: left.width.max(right.width),
        signed: left.signed && right.signed,
    }
}

/// The width and the sign of an operation of two operands alone, by those of the operands.
pub fn infix_own(op: Infix, left: Context, right: Context) -> Context
    ensures { result ≡ means.infix_own op left right }
{
    match op {
        Infix::Vector(_) => larger(left, right),
        Infix::Shift(_) => left,
        Infix::Power => left,
        Infix::Order(_) => single(),
        Infix::Equality { op: _, negated: _ } => single(),
        Infix::Both => single(),
        Infix::Either => single(),
    }
}

/// At what its left operand is valued.
pub fn left_context(op: Infix, at: Context, left: Context, right: Context) -> Context
    ensures { result ≡ means.left_context op at left right }
{
    match op {
        Infix::Vector(_) => at,
        Infix::Shift(_) => at,
        Infix::Power => at,
        Infix::Order(_) => larger(left, right),
        Infix::Equality { op: _, negated: _ } => larger(left, right),
        Infix::Both => left,
        Infix::Either => left,
    }
}

/// At what its right operand is valued.
pub fn right_context(op: Infix, at: Context, left: Context, right: Context) -> Context
    ensures { result ≡ means.right_context op at left right }
{
    match op {
        Infix::Vector(_) => at,
        Infix::Shift(_) => right,
        Infix::Power => right,
        Infix::Order(_) => larger(left, right),
        Infix::Equality { op: _, negated: _ } => larger(left, right),
        Infix::Both => right,
        Infix::Either => right,
    }
}

// A bit, or its negation.
fn negated_if(negated: bool, b: Bit4) -> Bit4
    ensures { result ≡ means.negated_if negated b }
{
    if negated { negate(b) } else { b }
}

// The bit that an operation of two operands gives.
#[tactic(auto, using(crate::proofs::Lengths::narrow))]
fn infix_bit(op: Infix, left: Context, right: Context, a: &Vec4, b: &Vec4) -> Bit4
    requires same { means.Alike op (length a.now) (length b.now) }
    requires narrow { means.infix_most op (length a.now) (length b.now) ≤ 128 }
    ensures { result ≡ means.infix_bit op left right a.now b.now }
{
    match op {
        Infix::Vector(_) => Bit4::X,
        Infix::Shift(_) => Bit4::X,
        Infix::Power => Bit4::X,
        Infix::Order(op) => ordered(op, a, b, left.signed && right.signed),
        Infix::Equality { op, negated } => negated_if(negated, equal(op, a, b)),
        Infix::Both => both(truth(a), truth(b)),
        Infix::Either => either(truth(a), truth(b)),
    }
}

/// What it gives, by what the operands are, each valued at its context. Or want of memory.
#[tactic(auto, using(crate::proofs::Lengths::narrow))]
pub fn infix_value(
    alloc: Global,
    op: Infix,
    at: Context,
    left: Context,
    right: Context,
    a: &Vec4,
    b: &Vec4,
) -> Result<Vec4, AllocError>
    requires same { means.Alike op (length a.now) (length b.now) }
    requires narrow { means.infix_most op (length a.now) (length b.now) ≤ 128 }
    ensures { IfOk result (λ r. r ≡ means.infix_value op at left right a.now b.now) }
{
    match op {
        Infix::Vector(op) => combined(alloc, op, a, b, at.signed),
        Infix::Shift(op) => shifted(alloc, op, a, b, at.signed),
        Infix::Power => powered(alloc, a, b, at.signed, right.signed),
        Infix::Order(_) => one_bit(alloc, infix_bit(op, left, right, a, b), at.width, at.signed),
        Infix::Equality { op: _, negated: _ } => {
            one_bit(alloc, infix_bit(op, left, right, a, b), at.width, at.signed)
        }
        Infix::Both => one_bit(alloc, infix_bit(op, left, right, a, b), at.width, at.signed),
        Infix::Either => one_bit(alloc, infix_bit(op, left, right, a, b), at.width, at.signed),
    }
}
