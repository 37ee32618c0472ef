//! What is typed in a sound text is sound: types, declarations of blocks, and statements. The functions are laws, and do nothing; their
//! proofs, to be cited by crates above, are in `proofs/`.
#![tactic(auto)]

ghost use Rattle.stmt_laws.specs.Laws.{DeclarationsAreSound, StatementsAreSound, TypesAreSound};

/// A type that is written in a sound text is typed as a full type, and the names of the enums in it as sound constants (IEEE 1800-2017
/// clauses 6.19, 7.2, 7.3 and 7.4).
pub fn types_are_sound()
    ensures { TypesAreSound }
{}

/// What the declarations of a block in a sound text declare is sound, and the text behind them is sound again (clauses 6.8, 6.20 and
/// 9.3.1).
pub fn declarations_are_sound()
    ensures { DeclarationsAreSound }
{}

/// A statement of a sound text is typed as a sound one (clauses 9.3, 10.4, 11.4.2, 12.4 to 12.8 and 13.3).
pub fn statements_are_sound()
    ensures { StatementsAreSound }
{}
