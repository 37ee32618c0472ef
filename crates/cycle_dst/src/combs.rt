//! Combinational processes, as they are run.

use b4_core::Items;

/// A combinational process.
#[derive(Drop)]
pub struct Comb {
    /// The number of the process that it is.
    pub process: usize,
    /// Whether it is started at time zero.
    pub from_zero: bool,
    /// The signals that it waits for.
    pub waits: Items<usize>,
}
