//! A text that was written is read as the design that it was written from, and what a text reads as can be written.
#![tactic(auto)]

mod laws;
mod rewriting;

pub use laws::{rewritten_keeps_reading, written_reads_back};
pub use rewriting::{rewrite, write_read};
