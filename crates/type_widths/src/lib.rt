//! Widths of types of any size (IEEE 1800-2017 clauses 7.3.1 and 20.6.2).
#![tactic(auto)]

mod limbs;
mod widths;

pub use limbs::{Limbs, is_equal};
pub use widths::{low_width, wide};
