//! Breaks of the rules on bits, by what is found of a process before it runs: bits that aren't written on every path, and bits
//! and locals that are read before they are written, and bits that two processes write.
#![tactic(auto)]

mod own;
mod writers;

pub use own::{least_unset, left_out, read_early};
pub use writers::written_twice;
