//! Tests of which things need which, and of the order of many of them.
#![tactic(auto)]

#[cfg(test)]
mod cases;
#[cfg(test)]
mod graphs;
