//! Select paths with the types that the rules give them (IEEE 1800-2017 clauses 7.2.1, 7.4.5, 7.4.6 and 11.5.1).
#![tactic(auto)]

mod paths;
mod types;

pub use paths::{ends_in_part, is_typed_path};
