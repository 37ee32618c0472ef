//! Laws of the definitions.

ghost use Rattle.cycle_dst.specs.Inputs.{InputsOfTops};

/// The inputs of a design's machine are the bits of the inputs in the top's port list (IEEE 1364-2005 clause 12.3).
#[tactic(auto, using(crate::proofs::Inputs::inputs))]
pub fn inputs_of_tops()
    ensures { InputsOfTops }
{}
