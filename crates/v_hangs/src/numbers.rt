//! The signals among numbers.

ghost use Rattle.std.specs.Prelude.{◌≡◌, ◌<◌, ◌≤◌, ℕ, ◌&&◌, length, slice_index, IfOk, IfSome, OnOk};
ghost use Rattle.v_meaning.specs.Scopes.{is_signal};
ghost use Rattle.v_reads.specs.Reads.{is_among};
ghost use Rattle.v_stores.specs.Waits.{is_named};
ghost use Rattle.v_hangs.specs.Hangs.{AreSignals};

use std::alloc::{AllocError, Global};
use v_reads::Numbers;
use v_zero::{Signals, without_repeats};

// The signals among these numbers, if all are below a count.
fn signals_below(
    alloc: Global,
    numbers: &[u64],
    count: usize,
) -> Result<Option<Numbers>, AllocError>
    ensures { IfOk result (λ o. IfSome o (AreSignals count numbers.now)) }
{
    let mut signals = Numbers::new(alloc);
    for number in numbers {
        if *number < 4294967296 {
            if *number >= count as u64 {
                return Ok(None);
            }
            signals.push(*number)?;
        }
    }
    Ok(Some(signals))
}

/// The signals among numbers of signals and locals, each once, or nothing where one of them has no mark. Each signal has its mark,
/// below `mark`; the listed ones get this one. Or want of memory.
pub(crate) fn signals_once(
    alloc: Global,
    numbers: &[u64],
    mark: usize,
    marks: &mut [usize],
) -> Result<Option<Signals>, AllocError>
    requires { (m : ℕ) → m < length marks.old → slice_index marks.old m < mark }
    ensures long { length marks.new ≡ length marks.old }
    ensures newest { OnOk result ((m : ℕ) → m < length marks.new → slice_index marks.new m ≤ mark) }
    ensures listed { IfOk result (λ o. IfSome o (λ ns. (n : ℕ) → is_named ns n ≡ (is_signal n && is_among numbers.now n))) }
{
    match signals_below(alloc, numbers, marks.len())? {
        None => Ok(None),
        Some(signals) => {
            let listed = without_repeats(alloc, signals.as_slice(), mark, marks)?;
            Ok(Some(listed))
        }
    }
}
