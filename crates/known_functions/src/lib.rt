//! What is known of functions while a text is typed (IEEE 1800-2017 clause 13.4): a function is found by where it is declared, and
//! put behind those that are known.
#![tactic(auto)]

mod adding;
mod finding;

pub use adding::add;
pub use finding::find;
