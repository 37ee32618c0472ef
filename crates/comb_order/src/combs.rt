//! The combinational processes of a design.

ghost use Rattle.std.specs.Prelude.{◌≡◌, ◌≤◌, ◌<◌, ℕ, length, slice_index_or, IfOk};
ghost use Rattle.design_breaks.specs.Memories.{is_edged};
ghost use Rattle.comb_order.specs.Combs.{numbers_from};
ghost use Rattle.comb_order.specs.Bits.{AreFound};

use crate::bits::footprint_in;
use bit_needs::Footprint;
use flow_sets::Found;
use sqlite_items::Items;
use std::alloc::{AllocError, Global};
use sv_types::{Process, ProcessKind};

// Whether a process waits for edges.
fn waits_for_edges(kind: &ProcessKind) -> bool
    ensures { result ≡ is_edged kind.now }
{
    match kind {
        ProcessKind::Continuous => false,
        ProcessKind::Link(_) => false,
        ProcessKind::Comb => false,
        ProcessKind::Latch => false,
        ProcessKind::Star => false,
        ProcessKind::Edges(_) => true,
    }
}

/// The numbers of the combinational processes, in the order of the design.
pub fn comb_numbers(alloc: Global, processes: &[Process]) -> Result<Items<u32>, AllocError>
    requires { length processes.now ≤ 4294967296 }
    ensures { IfOk result (λ r. r ≡ numbers_from 0 processes.now) }
{
    let mut numbers = Items::new(alloc);
    for k in 0..processes.len() {
        if !waits_for_edges(&processes[k].kind) {
            numbers.push(k as u32)?;
        }
    }
    Ok(numbers)
}

/// The footprints of the processes with these numbers, by what is found of all processes.
pub fn comb_footprints(
    alloc: Global,
    widths: &[u32],
    numbers: &[u32],
    flows: &[Found],
) -> Result<Items<Footprint>, AllocError>
    requires { (k : ℕ) → k < length numbers.now → slice_index_or numbers.now k 0 < length flows.now }
    ensures { IfOk result (λ r. AreFound widths.now flows.now numbers.now r) }
{
    let mut footprints = Items::new(alloc);
    for n in numbers {
        let footprint = footprint_in(alloc, widths, &flows[*n as usize])?;
        footprints.push(footprint)?;
    }
    Ok(footprints)
}
