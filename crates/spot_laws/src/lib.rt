//! Each break of the rules on processes stands at a token of its instance's text. The function is a law, and does nothing; its proof,
//! to be cited by crates above, is in `proofs/`.
#![tactic(auto)]

ghost use Rattle.spot_laws.specs.Laws.{BreaksHaveSpots};

/// In a design of at most 2^32 signals each break of the rules on processes stands at a token that `spots_in` lists for its
/// instance: of a process, function or signal in its text, or of an expression or statement in one of them.
pub fn breaks_have_spots()
    ensures { BreaksHaveSpots }
{}
