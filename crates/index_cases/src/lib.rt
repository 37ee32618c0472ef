//! Targets under conditions on an index: a path of which an index selects from a part-select is written by targets for each number
//! with which the index names anything, each under the condition that the index has it. The laws are lemmas, to be cited by the
//! crates that lower.
#![tactic(auto)]

mod conditions;
mod numbers;

pub use conditions::has_bits;
pub use numbers::number_bits;
