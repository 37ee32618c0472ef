//! Macros: their definitions and bodies, and what comes next in a text (IEEE 1800-2017 clause 22).
#![tactic(auto)]

/// Brackets and commas.
pub mod brackets;
/// What is still to come of a text, and a body that is placed in part.
pub mod coming;
/// The text of a macro's definition.
pub mod definition;
/// The formals of a macro, by name.
pub mod formals;
/// Where an included file is looked for.
pub mod including;
/// What comes next, past newlines.
pub mod lines;
/// Lists of arguments.
pub mod lists;
/// Macros and the parts of their bodies.
pub mod macros;
/// What is still to come, with the lists in it.
pub mod pending;
/// The body of a macro in the place of its use.
pub mod placing;
/// Tokens that are dropped with their directive.
pub mod shapes;
/// A stack of values.
pub mod stack;
/// The macros by name.
pub mod table;
/// Lists of texts.
pub mod texts;
/// Tests on tokens.
pub mod tokens;
/// What the names of directives say.
pub mod words;
