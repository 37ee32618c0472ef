//! Breaks of the rules on the bits that a function gives back: bits of a result that aren't written on every path, and bits that are
//! read before they are written (IEEE 1800-2017 clauses 13.4 and 13.5).
#![tactic(auto)]

mod paths;
mod results;

pub use paths::{local_read_early, result_left_out, result_read_early};
pub use results::owed;
