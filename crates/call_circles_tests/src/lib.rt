//! Tests of broken calls.
#![tactic(auto)]

#[cfg(test)]
mod cases;
