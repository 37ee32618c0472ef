//! A law of texts and designs.

ghost use Rattle.v_tree.specs.Reading.{OneDesign};

/// The law that a text reads as one design at most.
pub fn reads_once()
    ensures { OneDesign }
{}
