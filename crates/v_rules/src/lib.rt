//! The first token of a design of a target text that breaks a rule.
#![tactic(auto)]

mod check;
mod items;
mod lists;
mod modules;
mod names;

pub use check::{first_broken, list_tokens};
pub use modules::Modules;
pub use names::module_scope;
