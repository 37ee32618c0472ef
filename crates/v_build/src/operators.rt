//! Which operator of the target has the meaning of an operation (IEEE 1364-2005 table 5-1).

ghost use Rattle.std.specs.Prelude.{◌≡◌};
ghost use Rattle.v_meaning.specs.Values as means;
ghost use Rattle.v_meaning.specs.Values.{unary_meaning, binary_meaning};
ghost use Rattle.v_build.specs.Trees.{comparison};

use b4_core::{BinOp, OrdOp, RedOp, ShiftOp, UnOp};
use v_tree::{VBinaryOp, VUnaryOp};

/// The operator before one operand.
pub fn unary_op(op: UnOp) -> VUnaryOp
    ensures { unary_meaning result ≡ means.unary op }
{
    match op {
        UnOp::Not => VUnaryOp::Not,
        UnOp::Neg => VUnaryOp::Neg,
    }
}

/// The reduction.
pub fn reduction_op(op: RedOp) -> VUnaryOp
    ensures { unary_meaning result ≡ means.reduce op }
{
    match op {
        RedOp::And => VUnaryOp::And,
        RedOp::Or => VUnaryOp::Or,
        RedOp::Xor => VUnaryOp::Xor,
        RedOp::Nand => VUnaryOp::Nand,
        RedOp::Nor => VUnaryOp::Nor,
        RedOp::Xnor => VUnaryOp::Xnor,
    }
}

/// The operator between two operands of one width.
pub fn binary_op(op: BinOp) -> VBinaryOp
    ensures { binary_meaning result ≡ means.binary op }
{
    match op {
        BinOp::And => VBinaryOp::And,
        BinOp::Or => VBinaryOp::Or,
        BinOp::Xor => VBinaryOp::Xor,
        BinOp::Xnor => VBinaryOp::Xnor,
        BinOp::Add => VBinaryOp::Add,
        BinOp::Sub => VBinaryOp::Sub,
        BinOp::Mul => VBinaryOp::Mul,
        BinOp::Div => VBinaryOp::Div,
        BinOp::Rem => VBinaryOp::Rem,
    }
}

/// The shift.
pub fn shift_op(op: ShiftOp) -> VBinaryOp
    ensures { binary_meaning result ≡ means.shift op }
{
    match op {
        ShiftOp::Left => VBinaryOp::ShiftLeft,
        ShiftOp::Right => VBinaryOp::ShiftRight,
        ShiftOp::Arith => VBinaryOp::ArithmeticRight,
    }
}

/// The comparison by order.
pub fn order_op(op: OrdOp) -> VBinaryOp
    ensures { binary_meaning result ≡ means.order op }
{
    match op {
        OrdOp::Less => VBinaryOp::Less,
        OrdOp::LessEqual => VBinaryOp::LessEqual,
        OrdOp::Greater => VBinaryOp::Greater,
        OrdOp::GreaterEqual => VBinaryOp::GreaterEqual,
    }
}

/// `==`, `!=`, `===` or `!==`.
pub fn comparison_op(exact: bool, negated: bool) -> VBinaryOp
    ensures { binary_meaning result ≡ comparison exact negated }
{
    match (exact, negated) {
        (false, false) => VBinaryOp::Equal,
        (false, true) => VBinaryOp::NotEqual,
        (true, false) => VBinaryOp::CaseEqual,
        (true, true) => VBinaryOp::CaseNotEqual,
    }
}
