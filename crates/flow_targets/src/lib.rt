//! What a statement may write of signals is among its targets. The function is a law, and does nothing; its proof, to be cited by
//! crates above, is in `proofs/`.
#![tactic(auto)]

ghost use Rattle.flow_targets.specs.Laws.{WritesAreTargets};

/// A statement writes no bit of a signal, by blocking or nonblocking assignments, that isn't among its targets (IEEE 1800-2017
/// clauses 10.4 and 13.5), whatever is known before.
pub fn writes_are_targets()
    ensures { WritesAreTargets }
{}
