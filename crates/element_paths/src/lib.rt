//! Select paths on elements of arrays, as paths in the elements alone (IEEE 1800-2017 clause 7.4.5).
#![tactic(auto)]

mod alone;
mod elements;

pub use alone::alone_path;
pub use elements::{Element, element_under};
