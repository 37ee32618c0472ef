//! Tests of select paths as they are typed.
#![tactic(auto)]

#[cfg(test)]
mod cases;
#[cfg(test)]
mod maker;
