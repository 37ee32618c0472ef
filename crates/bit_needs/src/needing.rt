//! Who needs whom.

ghost use Rattle.std.specs.Prelude.{◌≡◌, ◌≤◌, ◌<◌, ℕ, true, length, slice_index_or, IfOk, OnOk};
ghost use Rattle.std.specs.List.Sorted.{IsNonDecreasing};
ghost use Rattle.row_machine.specs.Valuation.{Member};
ghost use Rattle.bit_needs.specs.Writers.{AreOrdered, AreWriters};
ghost use Rattle.bit_needs.specs.Needs.{AreNeeds};
ghost use Rattle.bit_needs.specs.Touching as spec;
ghost use Rattle.bit_needs.specs.Touching.{AddsOne, AddsTouched, AreTouched};

use crate::footprints::Footprint;
use crate::writers::{Writers, Written, writers_of};
use bit_sets::Span;
use sqlite_items::Items;
use std::alloc::{AllocError, Global};

/// Of each thing those that it needs, by their places.
pub type Needs = Items<Items<u32>>;

// The place of the first end above a number, or the length of the list.
fn first_above(ends: &[u128], n: u128) -> usize
    requires { IsNonDecreasing ends.now }
    ensures within { result ≤ length ends.now }
    ensures before { (k : ℕ) → k < result → slice_index_or ends.now k 0 ≤ n }
{
    let mut low = 0;
    let mut high = ends.len();
    while low < high {
        let middle = low + (high - low) / 2;
        if ends[middle] <= n {
            low = middle + 1;
        } else {
            high = middle;
        }
    }
    low
}

// Whether a list ends with a number.
fn ends_with(list: &[u32], number: u32) -> bool
    ensures { result ≡ true → Member list.now number }
{
    list.len() > 0 && list[list.len() - 1] == number
}

// Adds a number, unless it is the last one.
fn add_one(list: &mut Items<u32>, number: u32) -> Result<(), AllocError>
    ensures { OnOk result (AddsOne number list.old list.new) }
{
    if ends_with(list.as_slice(), number) {
        return Ok(());
    }
    list.push(number)
}

// Whether two spans have a number in common.
fn touches(a: Span, b: Span) -> bool
    ensures { result ≡ spec.touches a b }
{
    a.low.max(b.low) < a.high.min(b.high)
}

// Adds those that write a number of a span.
fn add_touched(writers: &Writers, span: Span, to: &mut Items<u32>) -> Result<(), AllocError>
    requires { AreOrdered writers.now }
    ensures { OnOk result (AddsTouched writers.now.written span to.old to.new) }
{
    let written = writers.written.as_slice();
    let first = first_above(writers.ends.as_slice(), span.low);
    for k in first..written.len() {
        if written[k].span.low >= span.high {
            return Ok(());
        }
        if touches(written[k].span, span) {
            add_one(to, written[k].by)?;
        }
    }
    Ok(())
}

// Those that write one of the numbers that are read.
fn touched(alloc: Global, writers: &Writers, reads: &[Span]) -> Result<Items<u32>, AllocError>
    requires { AreOrdered writers.now }
    ensures { IfOk result (λ r. AreTouched writers.now.written reads.now r) }
{
    let mut list = Items::new(alloc);
    for span in reads {
        add_touched(writers, *span, &mut list)?;
    }
    Ok(list)
}

/// Of each thing those that write a number that it reads, by their places: each of them, perhaps more than once. A number may
/// have several writers. An error where memory runs out. With no number written twice it takes n log n steps for n spans, and
/// one for each two of them that have a number in common; no clause says so.
pub fn needs_of(alloc: Global, footprints: &[Footprint]) -> Result<Needs, AllocError>
    requires { length footprints.now ≤ 4294967296 }
    ensures { IfOk result (λ needs. AreNeeds footprints.now needs) }
{
    let writers = writers_of(alloc, footprints)?;
    let mut needs = Needs::new(alloc);
    for f in footprints {
        let list = touched(alloc, &writers, f.reads.as_slice())?;
        needs.push(list)?;
    }
    Ok(needs)
}
