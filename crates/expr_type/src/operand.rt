//! Typed expressions as they stand in others.

use sv_types::{Expr, Items};

/// A typed expression with what the rules of the expressions around it ask.
#[derive(Drop)]
pub struct Valued {
    /// Its first token, parentheses round the whole left out.
    pub first: u32,
    /// Its first token, parentheses round the whole included.
    pub begins: u32,
    /// Whether it is a number without a size (IEEE 1800-2017 clause 5.7.1).
    pub is_unsized: bool,
    /// The expression.
    pub expr: Expr,
    /// The operators in it that do arithmetic at the width of the context, in the order of the text: they are too wide (E502) in
    /// a context of more than 128 bits.
    pub arithmetic: Items<u32>,
}

/// A constant number.
#[derive(Clone, Copy)]
pub struct Number {
    /// The first token of the expression that gives it.
    pub first: u32,
    /// The number.
    pub number: i64,
}
