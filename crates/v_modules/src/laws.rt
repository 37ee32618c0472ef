//! Laws of the definitions.

ghost use Rattle.v_modules.specs.Laws.{NamesOfRules};

/// In a design that keeps the rules no module declares two signals of one name (IEEE 1364-2005 clause 12.7).
#[tactic(auto, using(crate::proofs::Once::once))]
pub fn names_stand_once()
    ensures { NamesOfRules }
{}
