//! How a run of a program ends: its status, and what its two sinks took.
#![tactic(auto)]

mod status;
mod writing;

pub use status::Status;
pub use writing::write_out;
