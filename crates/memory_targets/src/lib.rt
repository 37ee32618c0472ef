//! Targets in words of memories of the target language, made of those of a path in the word alone (IEEE 1364-2005 clauses 4.9 and 9.2).
#![tactic(auto)]

mod targets;
mod words;

pub use targets::in_words;
pub use words::Word;
