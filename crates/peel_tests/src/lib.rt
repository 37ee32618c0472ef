//! Tests of the order of things that need each other.
#![tactic(auto)]

#[cfg(test)]
mod cases;
