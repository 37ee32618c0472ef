//! Expressions, statements and functions as words of a stack machine.

use b4_core::{BinOp, Bit4, EqOp, OrdOp, RedOp, ShiftOp, UnOp};
use sv_types::{CaseKind, Way};

/// A word. Where it makes a value of a type that no rule gives, that is the type that was last put.
#[derive(Clone, Copy)]
pub enum Word {
    /// A type, by its own words.
    Type(&'static str),
    /// The type of a vector of four-state bits with these bounds.
    Vector(i64, i64),
    /// The same, signed.
    SignedVector(i64, i64),
    /// The type of one four-state bit.
    Scalar,
    /// The type `int`.
    Int,
    /// A number of these bits, the most significant one first.
    Bits(&'static str),
    /// A signed number.
    Signed(&'static str),
    /// A number whose first digit fills the width of its context.
    GoesOn(&'static str),
    /// `'0`, `'1`, `'x` or `'z`.
    Fill(Bit4),
    /// A constant of the last type, of these bits.
    Constant(&'static str),
    /// A signal of the last type.
    Signal(u32),
    /// A local of the last type.
    Local(u32),
    /// A member, of the last type.
    Member(u32),
    /// An element by an index, of the last type.
    Index,
    /// A part-select, of the last type.
    Part(i64, i64),
    /// An indexed part-select, of the last type.
    Slide(u32, bool),
    /// `~` or `-`.
    Unary(UnOp),
    /// A reduction.
    Reduce(RedOp),
    /// `!`.
    Negate,
    /// A binary operator.
    Binary(BinOp),
    /// A shift.
    Shift(ShiftOp),
    /// `**`.
    Power,
    /// An order.
    Order(OrdOp),
    /// An equality.
    Equal(EqOp, bool),
    /// `&&`.
    Both,
    /// `||`.
    Either,
    /// `?:`.
    Choose,
    /// A concatenation of so many.
    Concat(u32),
    /// So often a concatenation of so many.
    Repeat(u32, u32),
    /// `inside`: for each letter a value, or for `r` a range.
    Inside(&'static str),
    /// A cast to the last type.
    Cast,
    /// `$clog2`.
    Clog2,
    /// A pattern of so many, of the last type.
    Pattern(u32),
    /// A stream in slices of so many bits, of so many.
    Stream(bool, u32, u32),
    /// A call of a function by its number with so many arguments, of the last type.
    Call(u32, u32),
    /// A local of the last type for the next block, by its number.
    Declare(u32),
    /// The same; it starts with the last expression.
    Start(u32),
    /// A block of the locals that wait and of so many statements.
    Block(u32),
    /// What stands for a replaced call: the locals that wait, so many statements before, and where so a statement then.
    Made(u32, bool),
    /// `if`, or with `else` where so.
    If(bool),
    /// A `case` with so many values for each item, and with `default` where so.
    Case(CaseKind, &'static str, bool),
    /// `for` over a local, of a first value, a test, a step and a statement.
    Loop(u32),
    /// An assignment to so many targets, nonblocking where so.
    Assign(u32, bool),
    /// A call of a task by its number with so many actuals.
    Task(u32, u32),
    /// `break`.
    Break,
    /// `continue`.
    Continue,
    /// `return`.
    Return,
    /// A formal of the last type, by the number of its local.
    Formal(u32, Way),
    /// A function with the formals that wait, of the last type and the last statement.
    Function,
    /// The words of `s = bits`, for a signal of eight bits.
    Set(u32, &'static str),
    /// The words of `s = s + 8'd1`, for a signal of eight bits.
    More(u32),
    /// The words of `int n = 0`, `n < limit` and `n + 1`, for a local and a signed limit.
    Upto(u32, &'static str),
}
