//! Which signals processes may write.

ghost use Rattle.std.specs.Prelude.{◌≡◌, ◌<◌, ◌≤◌, ℕ, length, map, slice_index, IfOk, IfSome, OnOk};
ghost use Rattle.v_writes.specs.Writes.{use_in};
ghost use Rattle.v_writes.specs.declared.targets.Written as spec;
ghost use Rattle.v_hangs.specs.Hangs.{ListsSignals};

use crate::numbers::signals_once;
use std::alloc::{AllocError, Global};
use v_reads::Numbers;
use v_writes::Written;
use v_zero::Signals;

// The signals and locals of these writes.
fn numbers_of(alloc: Global, writes: &[Written]) -> Result<Numbers, AllocError>
    ensures { IfOk result (λ ns. ns ≡ map (λ (w : spec.Written). w.number) writes.now) }
{
    let mut numbers = Numbers::new(alloc);
    for write in writes {
        numbers.push(write.number)?;
    }
    Ok(numbers)
}

/// The signals that are written, each once, or nothing where one of them has no mark. Each signal of the design has its mark, below
/// `mark`; the listed ones get this one. Or want of memory.
pub fn signals_written(
    alloc: Global,
    writes: &[Written],
    mark: usize,
    marks: &mut [usize],
) -> Result<Option<Signals>, AllocError>
    requires { (m : ℕ) → m < length marks.old → slice_index marks.old m < mark }
    ensures long { length marks.new ≡ length marks.old }
    ensures newest { OnOk result ((m : ℕ) → m < length marks.new → slice_index marks.new m ≤ mark) }
    ensures listed { IfOk result (λ o. IfSome o (ListsSignals (map use_in writes.now))) }
{
    let numbers = numbers_of(alloc, writes)?;
    signals_once(alloc, numbers.as_slice(), mark, marks)
}
