//! Tests of the evaluator's words.
#![tactic(auto)]

#[cfg(test)]
mod cases;
