//! Bits that two processes write.

ghost use Rattle.std.specs.Prelude.{◌≡◌, ◌≤◌, ◌++◌, ◌^◌, length, IfOk, OnOk};
ghost use Rattle.design_breaks.specs.Memories.{is_edged};
ghost use Rattle.sv_types.specs.declared.design.Design.{Design};
ghost use Rattle.flow_breaks.specs.Pieces as spec;
ghost use Rattle.flow_breaks.specs.Pieces.{AreFound, second_breaks};
ghost use Rattle.least_breaks.specs.Least.{IsLeast};

use bit_clashes::{Piece, in_order, least_clash};
use design_breaks::Break;
use flow_sets::{Found, Write};
use std::alloc::{AllocError, Global};
use sv_types::{Process, ProcessKind};

const RULE: u16 = 601;

// Whether a process waits for edges.
fn waits_for_edges(kind: &ProcessKind) -> bool
    ensures { result ≡ is_edged kind.now }
{
    match kind {
        ProcessKind::Continuous => false,
        ProcessKind::Link(_) => false,
        ProcessKind::Comb => false,
        ProcessKind::Latch => false,
        ProcessKind::Star => false,
        ProcessKind::Edges(_) => true,
    }
}

// Adds the pieces of signals that a process writes.
fn add_pieces(
    writes: &[Write],
    by: u32,
    instance: u32,
    to: &mut Vec<Piece>,
) -> Result<(), AllocError>
    ensures { OnOk result (to.new.items ≡ to.old.items ++ spec.pieces by instance writes.now) }
{
    for w in writes {
        if w.of.span.low < 18446744073709551616 {
            to.push(Piece {
                span: w.of.span,
                by,
                instance,
                at: w.of.at,
            })?;
        }
    }
    Ok(())
}

// Adds those of a process by what is found of it.
fn add_process(
    process: &Process,
    found: &Option<Found>,
    by: u32,
    to: &mut Vec<Piece>,
) -> Result<(), AllocError>
    ensures { OnOk result (to.new.items ≡ to.old.items ++ spec.pieces_of by process.now found.now) }
{
    match found {
        None => Ok(()),
        Some(f) => {
            if waits_for_edges(&process.kind) {
                add_pieces(f.later.as_slice(), by, process.instance, to)
            } else {
                add_pieces(f.writes.as_slice(), by, process.instance, to)
            }
        }
    }
}

// All pieces of signals that processes write.
fn all_pieces(
    alloc: Global,
    processes: &[Process],
    found: &[Option<Found>],
) -> Result<Vec<Piece>, AllocError>
    requires count { length found.now ≡ length processes.now }
    requires few { length processes.now ≤ 2 ^ 32 }
    ensures { IfOk result (λ r. r.items ≡ spec.pieces_from 0 processes.now found.now) }
{
    let mut all = Vec::new(alloc);
    for k in 0..processes.len() {
        add_process(&processes[k], &found[k], k as u32, &mut all)?;
    }
    Ok(all)
}

// The break at a place.
fn break_of(place: Option<u64>) -> Option<Break>
    ensures { result ≡ spec.break_of place }
{
    match place {
        None => None,
        Some(n) => Some(Break {
            instance: (n / 4294967296) as u32,
            at: (n % 4294967296) as u32,
            rule: RULE,
        }),
    }
}

/// The least write of a bit that another process writes at that token or before it, by what is found of the processes that can be
/// unrolled. In n log n steps for n writes; no clause says so.
pub fn written_twice(
    alloc: Global,
    processes: &[Process],
    found: &[Option<Found>],
) -> Result<Option<Break>, AllocError>
    requires count { length found.now ≡ length processes.now }
    requires few { length processes.now ≤ 2 ^ 32 }
    ensures { IfOk result (λ r. (d : Design) → processes.now ≡ d.processes → AreFound d found.now → IsLeast (second_breaks d) r) }
{
    let pieces = all_pieces(alloc, processes, found)?;
    let ordered = in_order(pieces)?;
    Ok(break_of(least_clash(ordered.as_slice())))
}
