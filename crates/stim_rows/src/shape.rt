//! The ports of a design's top.

use b4_core::{Items, Vec4};
use sv_source::Text;

/// A port of the top.
#[derive(Drop)]
pub struct Port {
    /// Its name.
    pub name: Text,
    /// How many bits it has, as many as it has marks.
    pub width: u32,
    /// A mark for each bit, least significant first: One where the bit is of a two-state type.
    pub two_state: Vec4,
    /// The place of its vector in a valuation of a trace.
    pub signal: u32,
}

/// Ports, in the order of the port list.
pub type Ports = Items<Port>;

/// What the top takes in a row and gives after it.
#[derive(Drop)]
pub struct Shape {
    /// Its inputs.
    pub inputs: Ports,
    /// Its outputs.
    pub outputs: Ports,
    /// How many bits all signals of the design have together.
    pub bits: u64,
}
