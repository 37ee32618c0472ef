//! What the typing of texts takes for granted, of a source that is read and of sound frames. The functions are laws, and do nothing; their
//! proofs, to be cited by crates above, are in `proofs/`.
#![tactic(auto)]

ghost use Rattle.source_laws.specs.Laws.{FramesAreSound, TextsAreSound};

/// The functions and tasks of a text that is read are sound where no name finds a signal: they are written (IEEE 1800-2017 annex A), and
/// what their bodies assign to is no signal.
pub fn texts_are_sound()
    ensures { TextsAreSound }
{}

/// The text of a frame whose lists are sound is one in which expressions and statements can be typed, and so is the text of each of its
/// functions and tasks, however deep calls lie in it (clauses 13.3 to 13.5 and 23.9).
pub fn frames_are_sound()
    ensures { FramesAreSound }
{}
