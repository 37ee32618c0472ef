//! Parameters by their values (IEEE 1800-2017 clauses 6.20 and 11.2.1): whether what they are given is a constant of their type, and
//! what it is as that type stores it.
#![tactic(auto)]

mod parameters;
mod rules;
mod runs;

pub use parameters::{Place, parameter_value, ranged_value};
