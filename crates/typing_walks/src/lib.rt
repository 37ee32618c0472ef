//! Expressions of a text are sound as they are typed, whatever stands in them: laws on whole texts, over those of `typing_fits` on
//! single rules. They are lemmas, to be cited by the crates that type expressions.
#![tactic(auto)]
