//! Values of the names of enums as they are written: constants of any width, or one more than the value before (IEEE 1800-2017 clauses
//! 6.19 and 11.2.1).
#![tactic(auto)]

mod bits;
mod marks;
mod values;

pub use bits::constant_bits;
pub use values::{unwritten_value, written_value};
