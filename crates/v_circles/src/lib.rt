//! The first token of a design of a target text that breaks a rule, circles of modules among them.
#![tactic(auto)]

mod calls;
mod check;
mod tokens;

pub use calls::short;
pub use check::first_broken;
pub use tokens::item_tokens;
