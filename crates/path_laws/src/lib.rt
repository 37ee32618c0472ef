//! What the rules of typing give for a select path is a typed path, as lowering takes it. The functions are laws, and do nothing; their
//! proofs, to be cited by crates above, are in `proofs/`.
#![tactic(auto)]

ghost use Rattle.path_laws.specs.Laws.{PathsAreTyped, TargetsAreTyped, StatementsAreTyped, BasesArePlain};

/// A select path that the rules of typing give as a target, as an actual that is assigned or, on a signal or local, as a value, is a
/// typed path on what its name stands for (IEEE 1800-2017 clauses 7.2.1, 7.4.5, 7.4.6 and 11.5.1).
pub fn paths_are_typed()
    ensures { PathsAreTyped }
{}

/// What the rules of typing give for the target of an assignment are typed paths, concatenations of such, and streams of these (clauses
/// 10.4, 11.4.12 and 11.4.14.3); for an actual that is assigned, paths and concatenations (clause 13.5).
pub fn targets_are_typed()
    ensures { TargetsAreTyped }
{}

/// Each assignment in what the rules of typing give for a statement, a block or a continuous assignment writes such targets (clauses
/// 10.3, 10.4, 11.4.2 and 12).
pub fn statements_are_typed()
    ensures { StatementsAreTyped }
{}

/// No enum has an unpacked base in a type that the rules of typing give for a text (clause 6.19).
pub fn bases_are_plain()
    ensures { BasesArePlain }
{}
