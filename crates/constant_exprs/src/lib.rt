//! Typed expressions that are constant: whose value is known whatever signals and locals hold (IEEE 1800-2017 clause 11.2.1).
#![tactic(auto)]

mod constants;
mod parts;
mod placed;

pub use constants::is_constant;
