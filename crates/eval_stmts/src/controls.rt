//! The control of loops (IEEE 1800-2017 clause 12.7.1).

use sv_types::Expr;

/// No loop makes more turns.
pub const MOST_TURNS: u32 = 65536;

/// What controls a loop.
#[derive(Clone, Copy)]
pub struct Control<'a> {
    /// The number of its variable.
    pub local: u32,
    /// The variable's first value, which has its type.
    pub first: &'a Expr,
    /// Whether another turn is made.
    pub test: &'a Expr,
    /// Its value in the next turn.
    pub step: &'a Expr,
}
