//! The text of a target design (IEEE 1364-2005).
#![tactic(auto)]

mod expressions;
mod items;
mod margin;
mod page;
mod statements;
mod writer;

pub use writer::{text_len, write_text};
