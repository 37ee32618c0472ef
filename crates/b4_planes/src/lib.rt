//! Vectors of four-state bits as two planes of words, and the operators on them in place.
#![tactic(auto)]

mod kernels;
mod planes;
mod sweep;
mod words;

pub use planes::Planes;
