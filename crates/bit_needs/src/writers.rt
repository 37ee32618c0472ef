//! The writers of numbers, in the order of what they write.

ghost use Rattle.std.specs.Prelude.{◌≡◌, ◌≤◌, ◌++◌, length, map, IfOk, OnOk};
ghost use Rattle.std.specs.List.Sorted.{IsNonDecreasingBy, IsPermutation};
ghost use Rattle.bit_needs.specs.Writers.{pieces_from, piece, AreReached, AreWriters};

use crate::footprints::Footprint;
use bit_sets::Span;
use sqlite_items::Items;
use std::alloc::{AllocError, Global};

/// Numbers that one thing writes.
#[derive(Clone, Copy)]
pub struct Written {
    /// The numbers.
    pub span: Span,
    /// The place of the thing.
    pub by: u32,
}

/// All that is written, in the order of the first numbers.
#[derive(Drop)]
pub struct Writers {
    /// The pieces.
    pub written: Items<Written>,
    /// Of each piece the greatest end of it and those before it.
    pub ends: Items<u128>,
}

// Adds what one thing writes.
fn add_pieces(spans: &[Span], by: u32, to: &mut Vec<Written>) -> Result<(), AllocError>
    ensures { OnOk result (to.new.items ≡ to.old.items ++ map (piece by) spans.now) }
{
    for span in spans {
        to.push(Written { span: *span, by })?;
    }
    Ok(())
}

// All that is written, thing by thing.
fn pieces(alloc: Global, footprints: &[Footprint]) -> Result<Vec<Written>, AllocError>
    requires { length footprints.now ≤ 4294967296 }
    ensures { IfOk result (λ r. r.items ≡ pieces_from 0 footprints.now) }
{
    let mut all = Vec::new(alloc);
    for k in 0..footprints.len() {
        add_pieces(footprints[k].writes.as_slice(), k as u32, &mut all)?;
    }
    Ok(all)
}

// All that is written, in the order of the first numbers.
fn sorted_pieces(alloc: Global, footprints: &[Footprint]) -> Result<Items<Written>, AllocError>
    requires { length footprints.now ≤ 4294967296 }
    ensures same { IfOk result (λ r. IsPermutation (pieces_from 0 footprints.now) r) }
    ensures ordered { IfOk result (λ r. IsNonDecreasingBy (λ (w : _). w.span.low) r) }
{
    let mut all = pieces(alloc, footprints)?;
    all.sort_by_key(|w| w.span.low)?;
    Ok(Items::from_vec(all))
}

// Of each piece the greatest end of it and those before it.
fn ends_of(alloc: Global, written: &[Written]) -> Result<Items<u128>, AllocError>
    ensures { IfOk result (λ r. AreReached written.now r) }
{
    let mut ends = Items::new(alloc);
    let mut last = 0;
    for w in written {
        last = w.span.high.max(last);
        ends.push(last)?;
    }
    Ok(ends)
}

/// The writers of all numbers.
pub fn writers_of(alloc: Global, footprints: &[Footprint]) -> Result<Writers, AllocError>
    requires { length footprints.now ≤ 4294967296 }
    ensures { IfOk result (λ r. AreWriters footprints.now r) }
{
    let written = sorted_pieces(alloc, footprints)?;
    let ends = ends_of(alloc, written.as_slice())?;
    Ok(Writers { written, ends })
}
