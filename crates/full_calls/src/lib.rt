//! Whether the calls in typed expressions and statements pass no more than there are formals (IEEE 1800-2017 clause 13.5), as
//! `expr_flows` and `stmt_flows` ask.
#![tactic(auto)]

mod exprs;
mod stmts;

pub use exprs::{are_full, is_full};
pub use stmts::is_stmt_full;
