//! Declarations of the names of functions and blocks of a target text (IEEE 1364-2005 clauses 9.8.3, 10.4 and 12.7).
#![tactic(auto)]

mod declares;

pub use declares::{declare_locals, declare_parts};
