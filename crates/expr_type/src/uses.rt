//! What stands in typed expressions.

use sv_types::Items;

/// What stands in an expression or a statement, as far as the rules on constants ask.
#[derive(Drop)]
pub struct Uses {
    /// Whether it names a signal or a local.
    pub names: bool,
    /// Whether a stream stands in it (IEEE 1800-2017 clause 11.4.14).
    pub streams: bool,
    /// The functions that it calls, by their places.
    pub calls: Items<u32>,
}
