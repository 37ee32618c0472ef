//! Whole select paths that are read, step by step, with their indices lowered before (IEEE 1800-2017 clauses 7.2.1, 7.4.5 and
//! 11.5.1).
#![tactic(auto)]

mod bases;
mod indices;
mod paths;
mod steps;

pub use indices::StepIndex;
pub use paths::flatten;
