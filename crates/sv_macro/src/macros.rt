// Macros: what stands in a macro's body.

use sv_source::{Items, Token};

/// A part of a macro's body.
#[derive(Drop, Debug)]
pub enum Part {
    /// A token that stands for itself.
    Plain(Token),
    /// A formal, by its number from 0.
    Formal(usize),
    /// Two backquotes, which join what stands before and behind.
    Join,
}

/// The parts of a body.
pub type Parts = Items<Part>;

/// A macro (IEEE 1800-2017 clause 22.5.1).
#[derive(Drop, Debug)]
pub struct Macro {
    /// How many formals it has, where it has a list of them.
    pub arity: Option<usize>,
    /// Its body.
    pub parts: Parts,
    /// Whether its expansion is going on.
    pub busy: bool,
}
