//! The bits of all signals in a row.

ghost use Rattle.std.specs.Prelude.{◌≡◌, ◌<◌, ◌^◌, length, slice_index_or, IfOk};
ghost use Rattle.v_drives.specs.Rows.{starts_from, bits_before, all_bits};

use b4_core::Items;
use std::alloc::{AllocError, Global};
use v_eval::added;

/// The bits of all signals in a row: those of the first signal, the least first, then those of the second one, and so on.
#[derive(Drop)]
pub struct BitRow {
    /// How many bits each signal has.
    pub widths: Items<usize>,
    /// How many bits stand before those of each signal.
    pub starts: Items<usize>,
    ghost placed: { starts ≡ starts_from 0 widths },
    ghost counted: { all_bits widths < 2 ^ 64 },
}

impl BitRow {
    /// How many bits stand before those of a signal.
    pub fn start_of(&self, signal: usize) -> usize
        requires { signal < length self.now.widths }
        ensures { result ≡ bits_before self.now.widths signal }
    {
        self.starts.as_slice()[signal]
    }

    /// How many bits a signal has.
    pub fn width_of(&self, signal: usize) -> usize
        requires { signal < length self.now.widths }
        ensures { result ≡ slice_index_or self.now.widths signal 0 }
    {
        self.widths.as_slice()[signal]
    }
}

// How many bits stand before those of each signal.
fn starts_of(alloc: Global, widths: &[usize]) -> Result<Items<usize>, AllocError>
    ensures starts { IfOk result (λ r. r ≡ starts_from 0 widths.now) }
    ensures counted { IfOk result (λ r. all_bits widths.now < 2 ^ 64) }
{
    let mut starts = Items::new(alloc);
    let mut next = 0;
    for width in widths {
        starts.push(next)?;
        next = added(next, *width)?;
    }
    Ok(starts)
}

/// The row of signals that have so many bits. Or want of memory.
pub fn row_of(alloc: Global, widths: Items<usize>) -> Result<BitRow, AllocError>
    ensures { IfOk result (λ r. r.widths ≡ widths) }
{
    let starts = starts_of(alloc, widths.as_slice())?;
    Ok(BitRow { widths, starts })
}
