//! Expressions (IEEE 1364-2005 clause 5 and A.8).

use crate::operators::{VBinaryOp, VUnaryOp};
use b4_core::Vec4;
use sv_source::{Boxed, Items, Text};

/// Expressions in the order of the text.
pub type VExprs = Items<VExpr>;

/// Selects in the order of the text, the first one outermost.
pub type VSels = Items<VSel>;

/// How many bits a part-select takes (IEEE 1364-2005 clause 5.2.1).
#[derive(Clone, Copy)]
pub enum VExtent {
    /// `:right`, the bits from the base down to the right bound.
    Down(u32),
    /// `+:width`, so many bits from the base up.
    Up(u32),
}

/// A select behind a name (IEEE 1364-2005 clause 5.2.1, A.8.3 range_expression): a bit, a part, or a word of a memory.
#[cycle(expression)]
#[derive(Drop)]
pub enum VSel {
    /// `[base]`, `[base:right]` or `[base+:width]` with a decimal number as its base.
    Decimal {
        /// The base.
        base: u32,
        /// What stands behind the base; nothing takes one bit, or one word.
        extent: Option<VExtent>,
    },
    /// The same with an expression as its base.
    Expr {
        /// The base.
        base: Boxed<VExpr>,
        /// What stands behind the base; nothing takes one bit, or one word.
        extent: Option<VExtent>,
    },
}

/// The operand of an operator (IEEE 1364-2005 A.8.4 primary).
#[cycle(expression)]
#[derive(Drop)]
pub enum VPrim {
    /// A sized binary number of 1 to 128 bits, least first.
    Number(Vec4),
    /// An expression in parentheses.
    Paren(Boxed<VExpr>),
    /// A name with at most two selects.
    Name {
        /// The name, without the backslash and the space of an escaped identifier.
        name: Text,
        /// The selects.
        sels: VSels,
    },
    /// `function(args)`
    Call {
        /// The function's name.
        function: Text,
        /// The arguments, at least one.
        args: VExprs,
    },
    /// `{count{items}}`
    Repeat {
        /// How often.
        count: u32,
        /// What is repeated, at least one expression.
        items: VExprs,
    },
    /// `{items}`, at least one expression, the first most significant.
    Concat(VExprs),
    /// `$signed(of)` or `$unsigned(of)`
    Sign {
        /// Whether it is `$signed`.
        signed: bool,
        /// The expression.
        of: Boxed<VExpr>,
    },
}

/// An expression (IEEE 1364-2005 A.8.3 expression).
#[cycle(expression)]
#[derive(Drop)]
pub enum VExpr {
    /// An operand alone.
    Prim(VPrim),
    /// An operator before its operand.
    Unary {
        /// The operator.
        op: VUnaryOp,
        /// Its operand.
        of: VPrim,
    },
    /// An operator between its operands.
    Binary {
        /// The operator.
        op: VBinaryOp,
        /// The left operand.
        left: VPrim,
        /// The right operand.
        right: VPrim,
    },
    /// `on ? then : other`
    Choose {
        /// The condition.
        on: VPrim,
        /// The value where the condition is true.
        then: VPrim,
        /// The value where it is false.
        other: VPrim,
    },
}
