//! Tests of what expressions read and targets write before they run, over tables of typed expressions.
#![tactic(auto)]

#[cfg(test)]
mod flows;
#[cfg(test)]
mod tables;
