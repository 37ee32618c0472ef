//! The index of a frame's lists.

ghost use Rattle.std.specs.Prelude.{◌≡◌, IfOk};
ghost use Rattle.frame_things.specs.Finding.{IsIndexOf};

use crate::members::{Members, members_of};
use crate::places::{Places, places_of};
use std::alloc::{AllocError, Global};
use sv_types::Frame;

/// At which places of a frame's lists declarations stand, by their numbers.
#[derive(Drop)]
pub struct FrameIndex {
    /// Places of values.
    pub values: Places,
    /// Places of types.
    pub types: Places,
    /// Places of signals and members of interfaces.
    pub signals: Members,
}

/// The index of a frame's lists. It takes time by their lengths.
pub fn index_of(alloc: Global, frame: &Frame) -> Result<FrameIndex, AllocError>
    ensures { IfOk result (λ x. IsIndexOf frame.now x) }
{
    Ok(FrameIndex {
        values: places_of(alloc, frame.values.as_slice())?,
        types: places_of(alloc, frame.types.as_slice())?,
        signals: members_of(alloc, frame.signals.as_slice())?,
    })
}
