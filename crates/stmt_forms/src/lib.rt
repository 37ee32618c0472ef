//! Heads of loops and `return`s as they are typed (IEEE 1800-2017 clauses 12.7.1, 12.8 and 13.4.1), over parts that are typed already.
#![tactic(auto)]

mod loops;
mod returns;

pub use loops::{Head, loop_first, loop_stmt};
pub use returns::return_value;
