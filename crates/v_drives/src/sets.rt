//! Written bits as sets, and their numbers.

ghost use Rattle.std.specs.Prelude.{◌≡◌, ◌<◌, ◌≤◌, List, map, filter, length, Some, slice_get, slice_index_or, IfOk};
ghost use Rattle.bit_sets.specs.Sets.{IsSet};
ghost use Rattle.v_meaning.specs.Machine.{size, places_from};
ghost use Rattle.v_meaning.specs.Modules.{Signal};
ghost use Rattle.v_meaning.specs.Scopes.{Use};
ghost use Rattle.v_meaning.specs.Statements.{covered};
ghost use Rattle.v_drives.specs.Rows.{all_bits, AreCovered, AreMarks};
ghost use Rattle.v_writes.specs.Writes.{use_in};

use crate::rows::BitRow;
use crate::spans::spans_of;
use bit_sets::{Marks, Span, Spans, count_of, marks_of, union_of};
use std::alloc::{AllocError, Global};
use v_writes::Written;

/// The bits of signals that writes name, as a set. Or want of memory.
pub fn written_set(alloc: Global, row: &BitRow, writes: &[Written]) -> Result<Spans, AllocError>
    ensures set { IfOk result (λ r. IsSet r) }
    ensures bits { IfOk result (AreCovered row.now.widths (map use_in writes.now)) }
{
    let spans = spans_of(alloc, row, writes)?;
    union_of(alloc, spans.as_slice())
}

/// How many bits of signals writes name. Or want of memory.
pub fn written_count(alloc: Global, row: &BitRow, writes: &[Written]) -> Result<u128, AllocError>
    ensures most { IfOk result (λ n. n ≤ all_bits row.now.widths) }
    ensures value { IfOk result (λ n. (signals : List Signal) → map size signals ≡ row.now.widths → n ≡ length (filter (covered (map use_in writes.now)) (places_from 0 signals))) }
{
    let set = written_set(alloc, row, writes)?;
    Ok(count_of(set.as_slice()))
}

/// Of each bit of a signal whether a set of bits has it. Or want of memory.
pub fn marks_at(
    alloc: Global,
    row: &BitRow,
    set: &[Span],
    signal: usize,
) -> Result<Marks, AllocError>
    requires set { IsSet set.now }
    requires signal { signal < length row.now.widths }
    ensures { IfOk result (λ marks. (us : List Use) → AreCovered row.now.widths us set.now → AreMarks us signal (slice_index_or row.now.widths signal 0) marks) }
{
    marks_of(
        alloc,
        set,
        row.start_of(signal) as u128,
        row.width_of(signal),
    )
}
