//! What functions are known by.

use sv_source::{Spot, Text};

/// What a function or task is known by: the instance in whose text it is declared, its path there, and its name.
#[derive(Drop)]
pub(crate) struct Identity {
    /// The number of the instance.
    pub instance: u32,
    /// The path inside the instance.
    pub path: Text,
    /// The name in the declaration.
    pub spot: Spot,
}
