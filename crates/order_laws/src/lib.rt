//! Where the tokens of a tree ascend in a part of a text, what the tree means breaks rules there alone, in the order of the text, so that
//! the first break is the least by turn and rule. The function is a law, and does nothing; its proof is in `proofs/`.
#![tactic(auto)]

ghost use Rattle.order_laws.specs.Laws.{TreesKeepOrder};

/// Expressions, types, parameters, continuous assignments, statements, functions and tasks keep the order of the text (IEEE 1800-2017
/// clauses 6, 7, 9 to 13 and 20).
pub fn trees_keep_order()
    ensures { TreesKeepOrder }
{}
