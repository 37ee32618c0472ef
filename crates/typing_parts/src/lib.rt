//! What expressions, statements and functions of a text are typed in: its tokens, what its names stand for, and the functions that
//! are known. What one step of typing gives is in `specs/`.
#![tactic(auto)]

mod known;
mod names;

pub use known::Known;
pub use names::{Names, Thing};
pub use pattern_types::copy_value;
