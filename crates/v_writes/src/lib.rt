//! The bits that targets and statements of the target language may write (IEEE 1364-2005 clauses 6.1 and 9.2).
#![tactic(auto)]

mod statements;
mod targets;

pub use statements::{branch_writes, stmt_writes};
pub use targets::{Writes, Written, lval_writes};
