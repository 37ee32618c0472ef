//! Functions and tasks of a sound text are sound where they are first needed, so that they can be run. The functions are laws, and do
//! nothing; their proofs, to be cited by crates above, are in `proofs/`.
#![tactic(auto)]

ghost use Rattle.routine_laws.specs.Laws.{BodiesAreSound, HeadsAreSound, RoutinesAreSound};

/// The body of a function whose targets find no signal is typed as a sound statement that writes no signal (IEEE 1800-2017 clauses 9.3,
/// 10.4, 12 and 13.3).
pub fn bodies_are_sound()
    ensures { BodiesAreSound }
{}

/// The formals of a function have narrow types, its head is sound where its result is, and the text behind a sound head is sound again
/// (clauses 13.3 to 13.5).
pub fn heads_are_sound()
    ensures { HeadsAreSound }
{}

/// A function or task of a sound text is sound where it is first needed, and so are all that are known then (clauses 13.3 to 13.5).
pub fn routines_are_sound()
    ensures { RoutinesAreSound }
{}
