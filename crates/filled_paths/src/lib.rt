//! Select paths with a number in place of an index, and the numbers with which an index names anything.
#![tactic(auto)]

mod numbers;
mod paths;

pub use numbers::{Numbers, numbers_at};
pub use paths::with_literal;
