//! Values of enum names (IEEE 1800-2017 clause 6.19).
#![tactic(auto)]

mod naming;
mod taken;
mod values;

pub use naming::{is_long, named_value};
pub use taken::Taken;
pub use values::{holds, in_base, value_after};
