//! What a text reads as is a design of the target grammar.
#![tactic(auto)]

mod laws;

pub use laws::reads_are_of_grammar;
