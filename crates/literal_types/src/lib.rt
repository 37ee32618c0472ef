//! Numbers as they are typed (IEEE 1800-2017 clause 5.7.1).
#![tactic(auto)]

mod based;
mod bits;
mod characters;
mod literals;
mod numbers;

pub use literals::{based_number, decimal, fill, sized_number, written_size, written_slice};
