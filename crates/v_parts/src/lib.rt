//! What stands among the parts of a row of the target grammar, by its kind.
#![tactic(auto)]

mod kind;
pub mod kinds;
mod taking;

pub use kind::Kind;
pub use taking::{all, first, same, split, turned};
