//! What a step of typing gives, in `specs/`, and laws on steps that are put together, in `proofs/`, to be cited by crates that walk over
//! expressions, types and statements. There is no code here.
#![tactic(auto)]
