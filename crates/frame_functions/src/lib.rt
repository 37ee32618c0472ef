//! What is known of functions while a text is typed, made of a list of functions (IEEE 1800-2017 clause 13.4).
#![tactic(auto)]

mod knowing;
mod places;

pub use knowing::known_of;
