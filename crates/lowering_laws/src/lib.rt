//! What lowering keeps: laws between what an expression of an elaborated design means and what an expression of the target
//! language means. They are lemmas, to be cited by the crates that lower; `specs/Same` says what is kept.
#![tactic(auto)]
