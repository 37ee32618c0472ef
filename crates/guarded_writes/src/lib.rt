//! Targets of select paths under one more condition.
#![tactic(auto)]

mod writes;

pub use writes::put_under;
