//! Laws of memories of the target language: writes to their words, and when they hold what arrays of the source do. They are lemmas,
//! to be cited by the crates that lower.
#![tactic(auto)]
