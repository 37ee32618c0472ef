//! Texts of functions and tasks.

ghost use Rattle.std.specs.Prelude.{◌≡◌};
ghost use Rattle.typing_stmts.specs.Around.{text_behind};
ghost use Rattle.typing_names.specs.Texts.{context_of};

use frame_things::{FrameThings, Things};
use std::alloc::Global;
use sv_source::Text;
use typing_names::{FrameText, SourceNames, Start};

/// The text of the function or task with a declaration, before its head: it sees what stands around it in the frame's text, which
/// begins at a token, but no signals, and no locals of who calls it. Functions are called in it so deep. It takes no memory.
pub fn routine_text<'a, 't>(
    alloc: Global,
    source: &'a SourceNames<'t>,
    frame: FrameThings<'a>,
    at: u32,
    depth: usize,
    declaration: u32,
) -> FrameText<'a, 't>
    ensures { context_of result ≡ text_behind source.now.tree.now source.now.names.now frame.entry.frame.now at depth declaration }
{
    FrameText {
        source,
        things: Things::new(alloc, frame),
        at,
        depth,
        start: Start::Routine(declaration),
        result: None,
        whole: Text::new(alloc),
    }
}
