//! Copies of typed expressions: one item of a pattern may be given to several members or elements (IEEE 1800-2017 clause 10.9).
#![tactic(auto)]

mod exprs;
mod leaves;

pub use exprs::copy_expr;
pub use leaves::copy_value;
