//! The rules on processes and functions of a typed design, put together: the least break of them all.
#![tactic(auto)]

mod bits;
mod bodies;
mod check;
mod functions;
mod processes;

pub use bodies::Loops;
pub use check::check_processes;
