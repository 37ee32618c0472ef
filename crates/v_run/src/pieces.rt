//! What assignments write.

use b4_core::Vec4;
use sv_source::Items;
use v_eval::Window;

/// Bits that are written through a window of the signal or local with a number.
#[derive(Drop)]
pub struct Piece {
    /// The number of the signal, or 2^32 more than that of the local.
    pub number: u64,
    /// Where the bits go.
    pub window: Window,
    /// The bits, least first.
    pub bits: Vec4,
}

/// Writes, the first one first.
pub type Pieces = Items<Piece>;
