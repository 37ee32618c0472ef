//! Typed trees from words, as a stack machine reads them: types, expressions, statements and functions for tests and benches.
//! Each word takes what it needs from what was made last, and puts what it makes. The token of an expression is its number among
//! those that were made, from 1 on.
#![tactic(auto)]

mod exprs;
mod stmts;
mod types;
mod words;

pub use exprs::expression;
pub use stmts::{functions, statement};
pub use types::{bits, put_bits, put_value};
pub use words::Word;
