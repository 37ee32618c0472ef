//! The tokens of a file (IEEE 1800-2017 clause 5).
#![tactic(auto)]

mod bytes;
mod comments;
mod lexing;
mod literals;
mod piece;
mod spans;
mod tables;

pub use lexing::{lex, place_behind};
