//! Tests of running machines by rounds, on netlists of signals of one bit.
#![tactic(auto)]

#[cfg(test)]
mod cases;
mod netlist;

pub use netlist::{Flop, Gate, Netlist};
