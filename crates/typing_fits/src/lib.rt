//! What the rules of typing give can be valued as a constant: its types are those of its parts, none has more than 2^22 bits, an
//! index has at most 64, and arithmetic at most 128. The functions are laws, and do nothing; their proofs, to be cited by crates
//! above, are in `proofs/`.
#![tactic(auto)]

ghost use Rattle.typing_fits.specs.Laws.{OperatorsAreSound, SelectsAreSound, ValuesAreSound, CastsAreSound, OperandsAreSound, SoundExpressionsFit};

/// Operators, `?:`, `inside`, concatenations, replications and streams of sound operands are sound (IEEE 1800-2017 clauses 11.4
/// and 11.6).
pub fn operators_are_sound()
    ensures { OperatorsAreSound }
{}

/// Members, elements and parts of what is sound are sound where indices are and have at most 64 bits (clauses 7.2.1, 7.4.5, 7.4.6 and
/// 11.5.1).
pub fn selects_are_sound()
    ensures { SelectsAreSound }
{}

/// In a text in which signals, locals and constants have at most 2^22 bits, names of them are sound; and so are numbers (clause 5.7).
pub fn values_are_sound()
    ensures { ValuesAreSound }
{}

/// Casts to types, sizes and signs of what is sound, `$bits`, `$clog2`, `$signed` and `$unsigned` are sound (clauses 6.24.1, 20.6.2 and
/// 20.8.1).
pub fn casts_are_sound()
    ensures { CastsAreSound }
{}

/// Operands stay sound alone, in parentheses, as what is given to a type, as constants, as items of a pattern and as actuals of a
/// call (clauses 10.8, 10.9 and 13.5).
pub fn operands_are_sound()
    ensures { OperandsAreSound }
{}

/// What is sound may be valued by evaluation of constants, also where more functions are known.
pub fn sound_expressions_fit()
    ensures { SoundExpressionsFit }
{}
