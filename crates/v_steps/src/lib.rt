//! Single runs of the processes of a target design.
#![tactic(auto)]

mod ports;
mod runs;
mod steps;

pub use ports::{from_port, into_port};
pub use runs::run_does;
pub use steps::{run_one, update_one};
