//! Functions that were known for a while are taken away again, the latest first.
#![tactic(auto)]

mod cutting;

pub use cutting::cut;
