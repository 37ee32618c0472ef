//! A text of a frame.

ghost use Rattle.std.specs.Prelude.{◌≡◌, []};

use crate::source_names::SourceNames;
use frame_things::Things;
use sv_source::Text;
use sv_types::SvType;

/// Where the locals of a text are counted from.
#[derive(Clone, Copy)]
pub enum Start {
    /// From the last declaration before its items.
    Items,
    /// From the declaration of its function or task.
    Routine(u32),
}

/// A text of a frame: its items, or the body of a function or a task.
#[derive(Drop)]
pub struct FrameText<'a, 't> {
    /// The names of its source.
    pub source: &'a SourceNames<'t>,
    /// What declarations stand for in it.
    pub things: Things<'a>,
    /// The token at which the items of the frame's text begin.
    pub at: u32,
    /// How deep functions are called in it at most.
    pub depth: usize,
    /// Where its locals are counted from.
    pub start: Start,
    /// The type of what `return` gives.
    pub result: Option<&'a SvType>,
    /// The text without a byte.
    pub whole: Text,
    ghost empty: { whole ≡ [] },
}
