//! What is written in statements is typed as something sound. The functions are laws, and do nothing; their proofs, to be cited by
//! crates above, are in `proofs/`.
#![tactic(auto)]

ghost use Rattle.stmt_walks.specs.Laws.{TargetsAreSound};

/// The target of an assignment in a sound text is typed as a sound one, and each part of it fits as evaluation asks (IEEE 1800-2017
/// clauses 10.4, 11.4.12 and 11.4.14.3).
pub fn targets_are_sound()
    ensures { TargetsAreSound }
{}
