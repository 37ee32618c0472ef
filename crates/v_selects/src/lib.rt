//! The selects behind the names of target texts.
#![tactic(auto)]

mod laws;

pub use laws::selects_are_few;
