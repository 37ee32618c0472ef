//! Tests of operators, `?:`, concatenations and `inside` as they are typed.
#![tactic(auto)]

#[cfg(test)]
mod cases;
#[cfg(test)]
mod maker;
