//! `$bits` as it is typed (IEEE 1800-2017 clause 20.6.2).
#![tactic(auto)]

mod bits;

pub use bits::{bits_of_type, bits_of_value};
