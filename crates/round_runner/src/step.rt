//! One row.

ghost use Rattle.std.specs.Prelude.{◌≡◌, ◌<◌, length, All, IfOk, OnOk};
ghost use Rattle.round_runner.specs.Stores.{widths};
ghost use Rattle.round_runner.specs.Plans.{FitsPlan};
ghost use Rattle.round_runner.specs.Rows.{FitsRow, with_vectors, WithRow, AfterEdges, WithUpdates, StepEnds};

use crate::plan::Plan;
use crate::processes::Processes;
use crate::rounds::Ended;
use crate::settle::settle;
use crate::stores::{copied, copied_vector};
use b4_core::Vec4;
use std::alloc::{AllocError, Global};

// Puts vectors at signals.
fn put_vectors(
    alloc: Global,
    signals: &[usize],
    vectors: &[Vec4],
    to: &mut [Vec4],
) -> Result<(), AllocError>
    requires long { length vectors.now ≡ length signals.now }
    requires there { All (λ n. n < length to.old) signals.now }
    ensures { OnOk result (to.new ≡ with_vectors signals.now vectors.now to.old) }
{
    let mut j = signals.len();
    while j > 0 {
        j -= 1;
        let vector = copied_vector(alloc, &vectors[j])?;
        to[signals[j]] = vector;
    }
    Ok(())
}

// Puts a row in the inputs.
fn put_row<P: Processes>(
    alloc: Global,
    machine: &P,
    row: &[Vec4],
    to: &mut [Vec4],
) -> Result<(), AllocError>
    requires row { FitsRow (P.shape machine.now) (P.inputs machine.now) row.now }
    requires to { widths to.old ≡ P.shape machine.now }
    ensures { OnOk result (WithRow (P.machine machine.now) (P.inputs machine.now) row.now to.old to.new) }
{
    put_vectors(alloc, machine.inputs(), row, to)?;
    Ok(())
}

// Puts the updates of the edge processes that have their edge.
fn put_updates<P: Processes>(
    alloc: Global,
    machine: &P,
    last: &[Vec4],
    held: &[Vec4],
    to: &mut [Vec4],
) -> Result<(), AllocError>
    requires last { widths last.now ≡ P.shape machine.now }
    requires held { widths held.now ≡ P.shape machine.now }
    requires to { to.old ≡ held.now }
    ensures { OnOk result (AfterEdges (P.machine machine.now) last.now held.now to.new) }
{
    for i in 0..machine.edges() {
        if machine.has_edge(i, last, held) {
            machine.update(alloc, i, held, to)?;
        }
    }
    Ok(())
}

// The base of a row's first settling.
fn base_of_inputs<P: Processes>(
    alloc: Global,
    machine: &P,
    row: &[Vec4],
    held: &[Vec4],
) -> Result<Vec<Vec4>, AllocError>
    requires row { FitsRow (P.shape machine.now) (P.inputs machine.now) row.now }
    requires held { widths held.now ≡ P.shape machine.now }
    ensures { IfOk result (λ base. WithRow (P.machine machine.now) (P.inputs machine.now) row.now held.now base.items) }
{
    let mut base = copied(alloc, held)?;
    put_row(alloc, machine, row, &mut base)?;
    Ok(base)
}

// The base of its second settling.
fn base_of_updates<P: Processes>(
    alloc: Global,
    machine: &P,
    row: &[Vec4],
    last: &[Vec4],
    quiet: &[Vec4],
) -> Result<Vec<Vec4>, AllocError>
    requires row { FitsRow (P.shape machine.now) (P.inputs machine.now) row.now }
    requires last { widths last.now ≡ P.shape machine.now }
    requires quiet { widths quiet.now ≡ P.shape machine.now }
    ensures { IfOk result (λ base. WithUpdates (P.machine machine.now) (P.inputs machine.now) row.now last.now quiet.now base.items) }
{
    let mut base = copied(alloc, quiet)?;
    put_updates(alloc, machine, last, quiet, &mut base)?;
    put_row(alloc, machine, row, &mut base)?;
    Ok(base)
}

/// One row: the inputs settle, the edge processes that have their edge run, and their updates settle.
pub fn step<P: Processes>(
    alloc: Global,
    machine: &P,
    plan: &Option<Plan>,
    row: &[Vec4],
    last: &[Vec4],
    held: &[Vec4],
    started: &mut [bool],
) -> Result<Ended, AllocError>
    requires plan { FitsPlan (P.machine machine.now) (length (P.shape machine.now)) plan.now }
    requires row { FitsRow (P.shape machine.now) (P.inputs machine.now) row.now }
    requires last { widths last.now ≡ P.shape machine.now }
    requires held { widths held.now ≡ P.shape machine.now }
    requires started { length started.old ≡ length (P.machine machine.now).combs }
    ensures { IfOk result (StepEnds (P.machine machine.now) (P.inputs machine.now) row.now last.now held.now started.old started.new) }
{
    let base = base_of_inputs(alloc, machine, row, held)?;
    match settle(alloc, machine, plan, started, &base)? {
        Ended::Changes(change) => Ok(Ended::Changes(change)),
        Ended::Rests(quiet) => {
            let base = base_of_updates(alloc, machine, row, last, quiet.as_slice())?;
            let ended = settle(alloc, machine, plan, started, &base)?;
            Ok(ended)
        }
    }
}
