//! The numbers of constant indices of typed select paths, calls of functions in them among it (IEEE 1800-2017 clauses 11.2.1 and
//! 11.5.1).
#![tactic(auto)]

mod known;

pub use known::{IndexFail, KnownIndex, known_index};
