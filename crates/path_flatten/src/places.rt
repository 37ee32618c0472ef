//! Where a select path stands in the vector that holds what it stands on.

use v_tree::VExpr;

/// The place of a path: how many bits of the vector lie below it, where the guard is 1. Where the guard isn't, or the offset
/// has x or z, all bits of the path are out of range.
#[derive(Drop)]
pub struct Place {
    /// The condition that all indices are in range, if one has to be tested.
    pub guard: Option<VExpr>,
    /// The offset, unsigned.
    pub offset: VExpr,
}
