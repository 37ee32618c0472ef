//! `inside` as it is typed (IEEE 1800-2017 clauses 11.4.13 and 11.6): it compares with each item by itself, and the rules on what
//! stands in it.
#![tactic(auto)]

mod alternatives;
mod insides;

pub use alternatives::{Alternative, Alternatives};
pub use insides::inside_of;
