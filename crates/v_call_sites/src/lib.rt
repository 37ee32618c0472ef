//! The calls of functions in a target text, with their tokens, and what they break where some functions lead back. They are
//! lemmas, to be cited by the crate that looks for circles of functions.
#![tactic(auto)]
