//! What the top of a target text takes in a row and gives after it.
#![tactic(auto)]

mod ports;
mod shape;
mod signals;

pub use shape::shape_of_text;
