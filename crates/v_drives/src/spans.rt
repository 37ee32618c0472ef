//! Writes as spans in the row of all bits.

ghost use Rattle.std.specs.Prelude.{◌≡◌, [], ◌∷◌, map, IfOk};
ghost use Rattle.v_drives.specs.Rows.{AreCovered};
ghost use Rattle.v_writes.specs.Writes.{use_in};

use crate::rows::BitRow;
use bit_sets::{Span, Spans};
use std::alloc::{AllocError, Global};
use v_writes::Written;

// The bits of a signal that a write names. There are none where the number is no signal's.
fn span_of(row: &BitRow, write: Written) -> Span
    ensures { AreCovered row.now.widths (use_in write ∷ []) (result ∷ []) }
{
    let signal = write.number as usize;
    if signal >= row.widths.len() {
        return Span { low: 0, high: 0 };
    }
    let start = row.start_of(signal) as u128;
    let width = row.width_of(signal) as u128;
    Span {
        low: start + write.low.min(width),
        high: start + write.high.min(width),
    }
}

/// The bits that writes name, as spans in their order. Or want of memory.
pub fn spans_of(alloc: Global, row: &BitRow, writes: &[Written]) -> Result<Spans, AllocError>
    ensures { IfOk result (AreCovered row.now.widths (map use_in writes.now)) }
{
    let mut spans = Spans::new(alloc);
    for write in writes {
        spans.push(span_of(row, *write))?;
    }
    Ok(spans)
}
