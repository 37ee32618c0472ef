//! What a design of the target language means (IEEE 1364-2005 clauses 4, 5, 6, 9, 10 and 12): `specs/Machine` is its
//! machine over rows.
#![tactic(auto)]
