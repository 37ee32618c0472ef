//! The tokens of a target text (IEEE 1364-2005 clauses 3.1 to 3.7), with their places.
#![tactic(auto)]

mod bytes;
mod lexing;
mod numbers;
mod piece;
mod spelled;
mod token;

pub use lexing::{lex, lexes_tokens};
pub use token::{Says, VToken, VTokens};
