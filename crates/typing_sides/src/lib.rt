//! Two parts of a text that are both looked at, one behind the other.
#![tactic(auto)]

mod sides;

pub use sides::beside;
