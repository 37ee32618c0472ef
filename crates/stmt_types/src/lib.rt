//! Statements as they are typed (IEEE 1800-2017 clauses 9.3.1 and 12.5), over parts that are typed already.
#![tactic(auto)]

mod blocks;
mod cases;
mod lists;

pub use blocks::{BlockPart, block_of, local_type};
pub use cases::{CaseFound, case_kind, case_stmt};
