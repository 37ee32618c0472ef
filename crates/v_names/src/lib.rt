//! The signals and locals that expressions and statements of the target name (IEEE 1364-2005 clauses 9.7.5 and 12.7).
#![tactic(auto)]

mod expressions;
mod statements;

pub use expressions::{Numbers, expr_names, sels_names};
pub use statements::{branch_names, lval_names, stmt_names};
