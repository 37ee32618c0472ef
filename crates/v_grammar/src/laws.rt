//! Laws of the definitions.

ghost use Rattle.v_grammar.specs.Readable.{ReadsAreOfGrammar};

/// A design that a text spells is one of the target grammar: its names are printable, its numbers have from 1 to 128 bits, its
/// lists have what they need, no `else` could be taken for another `if`'s, and it nests no deeper than texts may (the subset of
/// IEEE 1364-2005 annex A in which texts are written).
pub fn reads_are_of_grammar()
    ensures { ReadsAreOfGrammar }
{}
