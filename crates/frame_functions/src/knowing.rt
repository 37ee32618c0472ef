//! Functions with their marks and places.

ghost use Rattle.std.specs.Prelude.{◌≡◌, IfOk, OnErr};
ghost use Rattle.routine_fits.specs.Sound.{AllSoundFunctions};
ghost use Rattle.typing_parts.specs.Typists.{IsReady};

use crate::places::places_of;
use constant_types::stream_marks;
use std::alloc::{AllocError, Global};
use std::mem;
use sv_source::Items;
use sv_types::Functions;
use typing_parts::Known;

/// What is known of functions that are sound, which are taken: where each stands, and in which of them streams stand, so that more can
/// be put behind them. It takes time by their texts. Where it wants memory, they stay.
pub fn known_of(alloc: Global, functions: &mut Functions) -> Result<Known, AllocError>
    requires sound { AllSoundFunctions functions.old }
    ensures functions { IfOk result (λ k. k.functions ≡ functions.old) }
    ensures ready { IfOk result IsReady }
    ensures left { OnErr result (functions.new ≡ functions.old) }
{
    let marks = stream_marks(alloc, functions.as_slice())?;
    let places = places_of(alloc, functions.as_slice())?;
    Ok(Known {
        functions: mem::replace(functions, Items::new(alloc)),
        marks,
        places,
    })
}
