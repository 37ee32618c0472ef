//! Laws of the definitions.

ghost use Rattle.v_selects.specs.Few.{SelectsAreFew};

/// At most two selects stand behind each name of a design that a text spells: that of a word of a memory, and that of bits
/// (IEEE 1364-2005 clause 5.2.2 and A.8.5).
pub fn selects_are_few()
    ensures { SelectsAreFew }
{}
