//! Typed statements and functions can be run: laws on what is made of sound expressions. They are lemmas, to be cited by the crates
//! that type functions.
#![tactic(auto)]
