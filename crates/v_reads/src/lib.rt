//! The signals and locals that expressions, targets, statements and functions of the target read (IEEE 1364-2005 clauses 9.7.5
//! and 10.4).
#![tactic(auto)]

mod expressions;
mod functions;
mod numbers;
mod statements;

pub use expressions::{expr_reads, sels_reads};
pub use functions::{function_reads, quiet_of};
pub use numbers::Numbers;
pub use statements::{branch_reads, lval_reads, stmt_reads};
