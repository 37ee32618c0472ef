//! Marks of signals.

ghost use Rattle.std.specs.Prelude.{◌≡◌, false, replicate, IfOk};
ghost use Rattle.memory_breaks.specs.Marks as spec;

use crate::Marks;
use flow_sets::Write;
use std::alloc::{AllocError, Global};

/// No marks, of so many signals. Or want of memory.
pub(crate) fn unmarked(alloc: Global, count: usize) -> Result<Marks, AllocError>
    ensures { IfOk result (λ r. r ≡ replicate count false) }
{
    let mut marks = Marks::new(alloc);
    for _k in 0..count {
        marks.push(false)?;
    }
    Ok(marks)
}

/// Marks a signal, if there is one with that number.
pub(crate) fn mark(number: u128, marks: &mut Marks)
    ensures { marks.new ≡ spec.marked number marks.old }
{
    if number < marks.len() as u128 {
        marks.set(number as usize, true);
    }
}

/// Marks signals.
pub(crate) fn mark_all(numbers: &[u32], marks: &mut Marks)
    ensures { marks.new ≡ spec.all_marked numbers.now marks.old }
{
    for n in numbers {
        mark(u128::from(*n), marks);
    }
}

/// Marks the signals of which bits are written.
pub(crate) fn mark_writes(writes: &[Write], marks: &mut Marks)
    ensures { marks.new ≡ spec.writes_marked writes.now marks.old }
{
    for w in writes {
        if w.of.span.low < w.of.span.high {
            mark(w.of.span.low / 4294967296, marks);
        }
    }
}
