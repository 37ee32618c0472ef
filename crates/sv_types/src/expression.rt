//! Typed expressions (IEEE 1800-2017 clause 11).

use crate::types::{SvType, Value};
use b4_core::{BinOp, Bit4, EqOp, OrdOp, RedOp, ShiftOp, UnOp, Vec4};
use sv_source::{Boxed, Items, Spot};

/// Expressions in order.
pub type Exprs = Items<Expr>;

/// What stands on the right of `inside`, in order.
pub type Choices = Items<Choice>;

/// A typed expression.
#[derive(Drop)]
#[cycle(expr)]
pub struct Expr {
    /// Its type: it has the self-determined width and sign (clauses 11.6 and 11.8).
    pub of: SvType,
    /// Its first token, parentheses round the whole left out.
    pub spot: Spot,
    /// What it is.
    pub form: Form,
}

/// The form of an expression.
#[derive(Drop)]
#[cycle(expr)]
pub enum Form {
    /// A number (clause 5.7.1).
    Literal {
        /// Its bits, least significant first.
        bits: Vec4,
        /// Whether its first digit is x or z and fills the width of the context.
        goes_on: bool,
    },
    /// `'0`, `'1`, `'x` or `'z`, which fills the width of the context (clause 5.7.1).
    Fill(Bit4),
    /// The value of a constant.
    Constant(Value),
    /// The signal with this number.
    Signal(u32),
    /// The local with this number.
    Local(u32),
    /// The member with this number, from 0 (clause 7.2.1).
    Member(Boxed<Expr>, u32),
    /// An element by an index (clauses 7.4.5 and 11.5.1).
    Index(Boxed<Expr>, Boxed<Expr>),
    /// A part-select with constant bounds (clause 11.5.1).
    Part {
        /// What is selected from.
        from: Boxed<Expr>,
        /// The left bound.
        left: i64,
        /// The right bound.
        right: i64,
    },
    /// An indexed part-select, `[base +: width]` or `[base -: width]` (clause 11.5.1).
    Slide {
        /// What is selected from.
        from: Boxed<Expr>,
        /// The index at which it begins.
        base: Boxed<Expr>,
        /// How many elements it selects.
        width: u32,
        /// Whether it is `+:`.
        up: bool,
    },
    /// `~` or `-`.
    Unary(UnOp, Boxed<Expr>),
    /// A reduction (clause 11.4.9).
    Reduce(RedOp, Boxed<Expr>),
    /// `!`.
    Negate(Boxed<Expr>),
    /// A binary operator whose operands take the width of the context.
    Binary(BinOp, Boxed<Expr>, Boxed<Expr>),
    /// A shift (clause 11.4.10).
    Shift(ShiftOp, Boxed<Expr>, Boxed<Expr>),
    /// `**` (clause 11.4.3).
    Power(Boxed<Expr>, Boxed<Expr>),
    /// `<`, `<=`, `>` or `>=`.
    Order(OrdOp, Boxed<Expr>, Boxed<Expr>),
    /// An equality or its negation (clauses 11.4.5 and 11.4.6).
    Equal {
        /// Which equality.
        op: EqOp,
        /// Whether it is negated.
        negated: bool,
        /// The left operand.
        left: Boxed<Expr>,
        /// The right operand.
        right: Boxed<Expr>,
    },
    /// `&&`.
    Both(Boxed<Expr>, Boxed<Expr>),
    /// `||`.
    Either(Boxed<Expr>, Boxed<Expr>),
    /// `?:` (clause 11.4.11).
    Choose(Boxed<Expr>, Boxed<Expr>, Boxed<Expr>),
    /// A concatenation, the first operand most significant (clause 11.4.12).
    Concat(Exprs),
    /// A concatenation that is repeated so often (clause 11.4.12.1).
    Repeat(u32, Exprs),
    /// `inside` (clause 11.4.13).
    Inside(Boxed<Expr>, Choices),
    /// A cast, `$signed` or `$unsigned` (clauses 6.24 and 20.5).
    Cast(Boxed<Expr>),
    /// `$clog2` (clause 20.8.1).
    Clog2(Boxed<Expr>),
    /// An assignment pattern: an item for each member or element, in order (clause 10.9).
    Pattern(Exprs),
    /// A call of the function at this place in the list of functions (clause 13.4).
    Call(u32, Exprs),
    /// A stream (clause 11.4.14).
    Stream {
        /// Whether it is `<<`, which reverses the order of the slices.
        reversed: bool,
        /// The bits of a slice.
        slice: u32,
        /// The parts, the first one most significant.
        parts: Exprs,
    },
}

/// What a value may be on the right of `inside`.
#[derive(Drop)]
#[cycle(expr)]
pub enum Choice {
    /// This value.
    Value(Expr),
    /// From the first to the second, both included.
    Range(Expr, Expr),
}
