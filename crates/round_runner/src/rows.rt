//! All rows.

ghost use Rattle.std.specs.Prelude.{◌≡◌, length, IfOk};
ghost use Rattle.round_runner.specs.Stores.{Holds};
ghost use Rattle.round_runner.specs.Parts.{StartsWith};
ghost use Rattle.round_runner.specs.Plans.{FitsPlan};
ghost use Rattle.round_runner.specs.Rows.{FitRows, RunGives};

use crate::grouping::plan_of;
use crate::plan::Plan;
use crate::processes::Processes;
use crate::rounds::{Change, Ended};
use crate::step::step;
use crate::stores::copied;
use b4_core::{Row, Rows, Trace, Vec4};
use std::alloc::{AllocError, Global};

/// Why a run has no trace.
#[derive(Debug, Drop)]
pub enum RunFail {
    /// Want of memory.
    Memory,
    /// A settling of this row, the first row being 0, doesn't come to rest. The first signal that its last round changed.
    Unsettled(usize, Change),
}

impl From<AllocError> for RunFail {
    ghost use Rattle.std.specs.Prelude.{◌≡◌};
    ghost use Rattle.round_runner.specs.declared.rows.RunFail.TheVariants.{Memory};

    ghost from_gives = { λ _ fail. fail ≡ Memory };

    fn from(_: AllocError) -> Self {
        RunFail::Memory
    }
}

// The flags of the processes that are started at time zero.
fn flags_at_zero<P: Processes>(alloc: Global, machine: &P) -> Result<Vec<bool>, AllocError>
    ensures { IfOk result (λ flags. StartsWith (P.machine machine.now) flags.items) }
{
    let count = machine.combs();
    let mut flags = Vec::with_capacity(alloc, count)?;
    for i in 0..count {
        flags.push(machine.starts_at_zero(i))?;
    }
    Ok(flags)
}

// Runs the rows from what the signals hold before the first one.
fn run_rows<P: Processes>(
    alloc: Global,
    machine: &P,
    plan: &Option<Plan>,
    rows: &[Row],
    initial: Vec<Vec4>,
    start: Vec<Vec4>,
    started: &mut [bool],
) -> Result<Trace, RunFail>
    requires plan { FitsPlan (P.machine machine.now) (length (P.shape machine.now)) plan.now }
    requires rows { FitRows (P.shape machine.now) (P.inputs machine.now) rows.now }
    requires initial { Holds (P.shape machine.now) (P.machine machine.now).initial initial.items }
    requires start { Holds (P.shape machine.now) (P.machine machine.now).start start.items }
    requires started { StartsWith (P.machine machine.now) started.old }
    ensures { RunGives (P.machine machine.now) (P.shape machine.now) (P.inputs machine.now) rows.now result }
{
    let mut last = initial;
    let mut held = start;
    let mut trace = Trace::new(alloc);
    for row in rows {
        match step(alloc, machine, plan, row.as_slice(), &last, &held, started)? {
            Ended::Changes(change) => return Err(RunFail::Unsettled(trace.len(), change)),
            Ended::Rests(now) => {
                last = copied(alloc, now.as_slice())?;
                held = copied(alloc, now.as_slice())?;
                trace.push(now)?;
            }
        }
    }
    Ok(trace)
}

/// Runs a machine over rows by rounds, each of which puts over the base what each started process assigns when it is run on
/// what the signals held at the round's start.
///
/// The trace has a store after each row. `Unsettled` comes exactly where each of one round more than the processes may write
/// bits changes a bit, with the first row where that is so, and the first signal that the last of these rounds changed.
pub fn run<P: Processes>(alloc: Global, machine: &P, rows: &Rows) -> Result<Trace, RunFail>
    requires { FitRows (P.shape machine.now) (P.inputs machine.now) rows.now }
    ensures { RunGives (P.machine machine.now) (P.shape machine.now) (P.inputs machine.now) rows.now result }
{
    let initial = machine.initial(alloc)?;
    let start = machine.start(alloc)?;
    let mut started = flags_at_zero(alloc, machine)?;
    let plan = plan_of(alloc, machine, initial.len())?;
    run_rows(
        alloc,
        machine,
        &plan,
        rows.as_slice(),
        initial,
        start,
        &mut started,
    )
}
