//! What is read from a text is written in each part: each concatenation, replication and stream has a part, and each struct and union a
//! member with a name. The function is a law, and does nothing; its proof is in `proofs/`.
#![tactic(auto)]

ghost use Rattle.written_laws.specs.Laws.{TextsAreWritten};

/// The tree of a text that is read is written in each part, and so are the heads and the bodies of its functions and tasks (IEEE 1800-2017
/// annex A).
pub fn texts_are_written()
    ensures { TextsAreWritten }
{}
