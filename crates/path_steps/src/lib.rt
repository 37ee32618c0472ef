//! Steps of select paths of the source, as their lowering needs them: which indices are known, and where a step's bits are and
//! what it names (IEEE 1800-2017 clauses 7.2.1, 7.4.5 and 11.5.1).
#![tactic(auto)]

mod free;
mod inner;
mod known;
mod sliding;

pub use known::{KnownIndex, fixed_bits, known_index};
pub use sliding::sliding_step;
