//! The tree of a source text, from its tokens.
#![tactic(auto)]

mod attributes;
mod declarations;
mod functions;
mod instances;
mod items;
mod loops;
mod lvalues;
mod ports;
mod processes;
mod reading;
mod rows;
mod statements;
mod units;
mod variables;
mod words;

pub use reading::{has_one_reading, read_source};
