//! Targets of select paths of which indices may select from part-selects.
#![tactic(auto)]

mod cases;
mod indices;
mod numbers;
mod spread;
mod targets;

pub use indices::PathIndex;
pub use spread::spread_target;
