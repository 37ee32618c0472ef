//! The first token of a design of a target text that breaks a rule, circles of modules and of functions among them.
#![tactic(auto)]

mod check;
mod expressions;
mod modules;
mod statements;
mod table;
mod walk;

pub use check::first_broken;
