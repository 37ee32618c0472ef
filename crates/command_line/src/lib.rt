//! The words of sv2v's command line.
#![tactic(auto)]

mod define;
mod draft;
mod part;
mod words;

pub use words::{Asked, read_words};
