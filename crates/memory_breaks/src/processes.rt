//! What all processes name, mention and may write.

ghost use Rattle.std.specs.Prelude.{◌≡◌, false, length, replicate, IfOk, OnOk};
ghost use Rattle.sv_types.specs.declared.design.Design.{Design};
ghost use Rattle.design_breaks.specs.Memories.{is_edged};
ghost use Rattle.memory_breaks.specs.Processes as spec;

use crate::Marks;
use crate::bodies::mark_stmt;
use crate::marks::{mark_all, mark_writes, unmarked};
use body_mentions::mentions_of;
use flow_sets::Found;
use std::alloc::{AllocError, Global};
use sv_types::{Function, Process, ProcessKind};

/// The signals that processes may write.
#[derive(Drop)]
pub(crate) struct Written {
    /// Those that edge processes may write.
    pub edged: Marks,
    /// Those that others may write.
    pub other: Marks,
}

fn waits_for_edges(kind: &ProcessKind) -> bool
    ensures { result ≡ is_edged kind.now }
{
    match kind {
        ProcessKind::Continuous => false,
        ProcessKind::Link(_) => false,
        ProcessKind::Comb => false,
        ProcessKind::Latch => false,
        ProcessKind::Star => false,
        ProcessKind::Edges(_) => true,
    }
}

// Marks what a process may write, by what is found of it if it can be unrolled.
fn mark_written(p: &Process, found: &Option<Found>, to: &mut Written)
    ensures { to.new ≡ spec.written_by p.now found.now to.old }
{
    match found {
        None => (),
        Some(f) => {
            if waits_for_edges(&p.kind) {
                mark_writes(f.later.as_slice(), &mut to.edged);
            } else {
                mark_writes(f.writes.as_slice(), &mut to.other);
            }
        }
    }
}

// No marks, of so many signals.
fn none_written(alloc: Global, signals: usize) -> Result<Written, AllocError>
    ensures { IfOk result (λ r. r ≡ spec.none_written signals) }
{
    let edged = unmarked(alloc, signals)?;
    let other = unmarked(alloc, signals)?;
    Ok(Written { edged, other })
}

/// Of so many signals those that processes may write, by what is found of the processes that can be unrolled. Or want of memory.
pub(crate) fn all_written(
    alloc: Global,
    signals: usize,
    processes: &[Process],
    found: &[Option<Found>],
) -> Result<Written, AllocError>
    requires count { length found.now ≡ length processes.now }
    ensures { IfOk result (λ r. r ≡ spec.all_written processes.now found.now (spec.none_written signals)) }
{
    let mut written = none_written(alloc, signals)?;
    for k in 0..processes.len() {
        mark_written(&processes[k], &found[k], &mut written);
    }
    Ok(written)
}

// Marks what a process names that can't be unrolled.
fn mark_unsettled(functions: &[Function], p: &Process, found: &Option<Found>, marks: &mut Marks)
    ensures { marks.new ≡ spec.unsettled_by functions.now p.now found.now marks.old }
{
    match found {
        None => mark_stmt(functions, &p.body, marks),
        Some(_) => (),
    }
}

/// Of so many signals those that processes name which can't be unrolled. Or want of memory.
pub(crate) fn all_unsettled(
    alloc: Global,
    signals: usize,
    functions: &[Function],
    processes: &[Process],
    found: &[Option<Found>],
) -> Result<Marks, AllocError>
    requires count { length found.now ≡ length processes.now }
    ensures { IfOk result (λ r. r ≡ spec.all_unsettled functions.now processes.now found.now (replicate signals false)) }
{
    let mut marks = unmarked(alloc, signals)?;
    for k in 0..processes.len() {
        mark_unsettled(functions, &processes[k], &found[k], &mut marks);
    }
    Ok(marks)
}

// Marks the signals that stand in a process as a whole.
fn mark_whole(alloc: Global, p: &Process, marks: &mut Marks) -> Result<(), AllocError>
    ensures { OnOk result (marks.new ≡ spec.whole_in p.now marks.old) }
{
    let mentioned = mentions_of(alloc, &p.body)?;
    mark_all(mentioned.whole.as_slice(), marks);
    Ok(())
}

/// Of so many signals those that stand in processes as a whole. Or want of memory.
pub(crate) fn all_whole(
    alloc: Global,
    signals: usize,
    processes: &[Process],
) -> Result<Marks, AllocError>
    ensures { IfOk result (λ r. r ≡ spec.all_whole processes.now (replicate signals false)) }
{
    let mut marks = unmarked(alloc, signals)?;
    for p in processes {
        mark_whole(alloc, p, &mut marks)?;
    }
    Ok(marks)
}
