//! What statements run in: what signals and locals hold, what is pending, and how much may still run.

use b4_core::Vec4;
use eval_parts::Found;

/// An update: bits for what a path names, as its type stores them.
#[derive(Drop)]
pub struct Update {
    /// What is written.
    pub to: Found,
    /// The bits.
    pub bits: Vec4,
}

/// What statements run in. A slot holds the bits of a signal or local by its number, least first, if it holds any.
#[derive(Drop)]
pub struct Env {
    /// Signals. One without bits isn't held, and one behind the last slot neither.
    pub signals: Vec<Option<Vec4>>,
    /// Locals. One without bits holds the default of its type.
    pub locals: Vec<Option<Vec4>>,
    /// Updates of nonblocking assignments, in order.
    pub pending: Vec<Update>,
    /// How many statements may run, if there is a limit.
    pub budget: Option<u64>,
}
