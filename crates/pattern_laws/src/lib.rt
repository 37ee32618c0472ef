//! Laws on breaks in assignment patterns (IEEE 1800-2017 clause 10.9), to be cited by crates that type patterns: which of several breaks
//! counts, and that a pattern is whole where its items are. There is no code here.
#![tactic(auto)]
