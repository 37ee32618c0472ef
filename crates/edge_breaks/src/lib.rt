//! Edges on signals that no plain names join to an input of the top (E607; IEEE 1800-2017 clause 9.4.2).
#![tactic(auto)]

mod edges;
mod joins;
mod links;
mod names;

pub use edges::unfit_edges;
pub use joins::joined;
pub use links::Link;
