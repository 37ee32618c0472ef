//! The text in which something is typed.

use sv_types::Token;

/// The tokens of a source, and the instance in whose text they are read.
#[derive(Clone, Copy)]
pub struct Source<'t> {
    /// The expanded tokens.
    pub tokens: &'t [Token],
    /// The number of the instance; 0 for packages and the compilation unit.
    pub instance: u32,
}
