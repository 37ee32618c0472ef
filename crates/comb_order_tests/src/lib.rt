//! Tests of what of processes counts for their order.
#![tactic(auto)]

#[cfg(test)]
mod footprints;
#[cfg(test)]
mod numbers;
