//! Runs a machine over rows by rounds.
#![tactic(auto)]

mod grouping;
mod plan;
mod planned;
mod processes;
mod remake;
mod round;
mod rounds;
mod rows;
mod settle;
mod step;
mod stores;

pub use processes::Processes;
pub use rounds::Change;
pub use rows::{RunFail, run};
