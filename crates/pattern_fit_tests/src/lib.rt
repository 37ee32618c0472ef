//! Tests of assignment patterns.
#![tactic(auto)]

#[cfg(test)]
mod cases;
