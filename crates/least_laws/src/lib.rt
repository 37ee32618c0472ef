//! The first break of a text that is read is the least. The functions are laws, and do nothing; their proofs, to be cited by crates above, are
//! in `proofs/`.
#![tactic(auto)]

ghost use Rattle.least_laws.specs.Laws.{FirstBreaksAreLeast, TreesAscend};

/// The tokens of the tree of a text that is read ascend, and so do those of each function and task in it, and of whatever else stands in
/// it in one piece (IEEE 1800-2017 annex A).
pub fn trees_ascend()
    ensures { TreesAscend }
{}

/// Of what breaks rules in an expression, a statement, or a function of a text that is read, with the functions that are first needed in it,
/// the first in the order of the text comes before all others by turn and rule, whatever the table of names and the frame.
pub fn first_breaks_are_least()
    ensures { FirstBreaksAreLeast }
{}
