//! Whether all forms of a typed expression are among those that are lowered.
#![tactic(auto)]

mod forms;
mod inner;

pub use forms::is_lowered;
