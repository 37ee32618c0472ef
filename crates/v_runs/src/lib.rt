//! Each process of a target design that keeps the rules can be run.
#![tactic(auto)]

mod laws;

pub use laws::{never_deeper, processes_run};
