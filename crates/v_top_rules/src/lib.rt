//! The rules on a design of a target text that hang on its top.
#![tactic(auto)]

mod check;
mod nodes;
mod orders;
mod search;
mod sums;

pub use check::{TopFail, check_top, top_bits};
