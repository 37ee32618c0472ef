//! What the names of a target text stand for where they are used: a table of names that blocks add to and that is put back
//! behind them.
#![tactic(auto)]

mod entry;
mod scope;

pub use entry::{Entry, Kind};
pub use scope::{Hidden, HiddenNames, Scope};
