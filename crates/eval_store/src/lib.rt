//! Slots that hold the bits of signals and locals, written in place (IEEE 1800-2017 clauses 10.4 and 11.5.1).
#![tactic(auto)]

mod bits;
mod slots;

pub use slots::{write_local, write_signal, write_slot};
