//! Steps of select paths by an index that is known or lowered.

ghost use Rattle.std.specs.Prelude.{◌≡◌, ◌≤◌, ◌*◌, length, IfOk, OnOk};
ghost use Rattle.sv_types.specs.Layouts.{layout, width_of};
ghost use Rattle.path_flatten.specs.Helping.{Grows};
ghost use Rattle.path_flatten.specs.Stepping.{IsSound};
ghost use Rattle.path_walk.specs.declared.indices.StepIndex.TheVariants as kinds;
ghost use Rattle.path_walk.specs.Indices.{IsShort, ReadsElementBy, ReadsSlideBy, ReadsWordBy, NamesStep, NamesWordBy};

use crate::indices::{StepIndex, copy_index};
use memory_words::{known_reading, word_number, word_reading};
use pairs::both;
use path_flatten::{Helpers, Index, PartSelect, Reading, element_step, index_step, slide_step};
use path_steps::sliding_step;
use std::alloc::{AllocError, Global};
use sv_source::Text;
use sv_types::SvType;

/// The element with an index, of what has this type.
pub(crate) fn element(
    alloc: Global,
    reading: Reading,
    of: &SvType,
    at: &StepIndex,
    helpers: &mut Helpers,
) -> Result<Reading, AllocError>
    requires narrow { width_of of.now ≤ 4194304 }
    requires short { IsShort at.now }
    requires sound { IsSound reading }
    ensures grows { OnOk result (Grows helpers.old helpers.new) }
    ensures sound { IfOk result IsSound }
    ensures reads { IfOk result (ReadsElementBy reading of.now at.now helpers.new) }
    ensures names { IfOk result (NamesStep reading at.now) }
{
    match at {
        StepIndex::Known(number) => Ok(element_step(reading, of, *number)),
        StepIndex::Lowered(index) => {
            let (reading, index) = both(Ok(reading), copy_index(alloc, index))?;
            let made = index_step(alloc, reading, of, index, helpers)?;
            Ok(made)
        }
    }
}

/// So many elements from an index on, of what has this type.
pub(crate) fn slide(
    alloc: Global,
    reading: Reading,
    of: &SvType,
    part: PartSelect,
    at: &StepIndex,
    helpers: &mut Helpers,
) -> Result<Reading, AllocError>
    requires narrow { width_of of.now ≤ 4194304 }
    requires short { IsShort at.now }
    requires sound { IsSound reading }
    ensures grows { OnOk result (Grows helpers.old helpers.new) }
    ensures sound { IfOk result IsSound }
    ensures reads { IfOk result (λ r. part.bits ≡ part.count * length (layout of.now).element.two_state → ReadsSlideBy reading of.now part.up part.count at.now helpers.new r) }
    ensures names { IfOk result (NamesStep reading at.now) }
{
    match at {
        StepIndex::Known(number) => { Ok(sliding_step(reading, of, part.up, part.count, *number)) }
        StepIndex::Lowered(index) => {
            let (reading, index) = both(Ok(reading), copy_index(alloc, index))?;
            let made = slide_step(alloc, reading, of, part, index, helpers)?;
            Ok(made)
        }
    }
}

/// The word of a lowered index, of what has this type and is a memory with this name.
fn lowered_word(
    alloc: Global,
    memory: Text,
    of: &SvType,
    index: Index,
) -> Result<Reading, AllocError>
    requires narrow { width_of of.now ≤ 4194304 }
    requires some { 1 ≤ width_of of.now }
    requires short { index.width ≤ 64 }
    ensures sound { IfOk result IsSound }
    ensures reads { IfOk result (ReadsWordBy memory of.now (kinds.Lowered index)) }
    ensures names { IfOk result (NamesWordBy memory (kinds.Lowered index)) }
{
    let (memory, word) = both(Ok(memory), word_number(alloc, index, of))?;
    let made = word_reading(alloc, memory, of, word)?;
    Ok(made)
}

/// The element with an index, of what has this type and is a memory with this name: the word of the index.
pub(crate) fn word(
    alloc: Global,
    memory: Text,
    of: &SvType,
    at: &StepIndex,
) -> Result<Reading, AllocError>
    requires narrow { width_of of.now ≤ 4194304 }
    requires some { 1 ≤ width_of of.now }
    requires short { IsShort at.now }
    ensures sound { IfOk result IsSound }
    ensures reads { IfOk result (ReadsWordBy memory of.now at.now) }
    ensures names { IfOk result (NamesWordBy memory at.now) }
{
    match at {
        StepIndex::Known(number) => {
            let known = known_reading(alloc, memory, of, *number)?;
            Ok(known)
        }
        StepIndex::Lowered(index) => {
            let (memory, index) = both(Ok(memory), copy_index(alloc, index))?;
            let lowered = lowered_word(alloc, memory, of, index)?;
            Ok(lowered)
        }
    }
}
