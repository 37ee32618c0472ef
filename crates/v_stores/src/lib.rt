//! What the signals of a target design hold, and edges on them.
#![tactic(auto)]

mod edges;
mod initial;
mod waits;

pub use edges::has_edge;
pub use initial::initial_store;
pub use waits::{differ_in, waits_of_names};
