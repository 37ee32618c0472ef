//! The rows of IEEE 1800-2017 table 11-21, by which operators are typed.

use b4_core::{BinOp, EqOp, OrdOp, RedOp, ShiftOp};

/// How an operator between two operands is typed.
#[derive(Clone, Copy, PartialEq, Eq)]
pub enum BinaryKind {
    /// `||`: each operand is valued alone, the result has one bit.
    Either,
    /// `&&`, likewise.
    Both,
    /// An operator on bits: operands and result have the larger width and that of the context.
    Bitwise(BinOp),
    /// An operator on numbers, likewise.
    Arithmetic(BinOp),
    /// An equality, or its negation: operands have the larger width, the result one bit.
    Equality {
        /// Which equality.
        op: EqOp,
        /// Whether it is negated.
        negated: bool,
    },
    /// A comparison by order, likewise.
    Order(OrdOp),
    /// A shift: the left operand has the width of the context, the right one is valued alone.
    Shift(ShiftOp),
    /// `**`, likewise.
    Power,
}

/// How an operator before an operand is typed.
#[derive(Clone, Copy, PartialEq, Eq)]
pub enum UnaryKind {
    /// `+`, which gives its operand.
    Plus,
    /// `-`: operand and result have the width of the context.
    Minus,
    /// `!`: the operand is valued alone, the result has one bit.
    Negation,
    /// `~`: operand and result have the width of the context.
    Inversion,
    /// A reduction: the operand is valued alone, the result has one bit.
    Reduction(RedOp),
}
