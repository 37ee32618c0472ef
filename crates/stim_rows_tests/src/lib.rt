//! Tests of row files and of the lines of a trace.
#![tactic(auto)]

#[cfg(test)]
mod cases;
