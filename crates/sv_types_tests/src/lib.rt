//! Tests of types and their values, over a table of cases.
#![tactic(auto)]

#[cfg(test)]
mod cases;
#[cfg(test)]
mod maker;
