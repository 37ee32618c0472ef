//! Assignment patterns: which item each member or element takes (IEEE 1800-2017 clause 10.9).
#![tactic(auto)]

mod fitting;
mod pattern;
mod same;

pub use fitting::fit;
pub use pattern::{FitFail, Key, Keys, Pattern, PatternItem, PatternItems, Rest};
pub use same::is_same;
