//! Helper functions of the target text: one for each kind and width that the text calls (IEEE 1364-2005 clause 10.4).
#![tactic(auto)]

mod by_kind;
mod parts;
mod values;

pub use by_kind::helper;
