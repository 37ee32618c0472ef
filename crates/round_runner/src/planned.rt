//! Rounds that run only the groups for which something has changed.

ghost use Rattle.std.specs.Prelude.{◌≡◌, length, IfOk};
ghost use Rattle.round_runner.specs.Stores.{widths};
ghost use Rattle.round_runner.specs.Plans.{IsPlan, FitsPlan, AllNumbers, LastOf};
ghost use Rattle.round_runner.specs.Rounds.{RoundsEnd};

use crate::plan::Plan;
use crate::processes::Processes;
use crate::remake::{changes, remake_all, take_vectors, told_groups};
use crate::rounds::{Ended, change_at, rounds};
use crate::stores::{copied, first_change};
use b4_core::{Items, Vec4};
use std::alloc::{AllocError, Global};

// All numbers below the count.
fn numbers(alloc: Global, count: usize) -> Result<Items<usize>, AllocError>
    ensures { IfOk result (AllNumbers count) }
{
    let mut all = Items::new(alloc);
    for n in 0..count {
        all.push(n)?;
    }
    Ok(all)
}

// The first signal that the last round changed.
fn last_change(alloc: Global, now: &[Vec4], next: &[Vec4]) -> Result<Ended, AllocError>
    requires { widths now.now ≡ widths next.now }
    ensures { IfOk result (LastOf now.now next.now) }
{
    match first_change(now, next) {
        None => Ok(Ended::Rests(Items::from_vec(copied(alloc, now)?))),
        Some(signal) => Ok(Ended::Changes(change_at(alloc, signal, now, next)?)),
    }
}

// Runs rounds, where both stores hold the base.
fn rounds_from_base<P: Processes>(
    alloc: Global,
    machine: &P,
    plan: &Plan,
    started: &[bool],
    base: &[Vec4],
    now: &mut [Vec4],
    next: &mut [Vec4],
) -> Result<Ended, AllocError>
    requires plan { IsPlan (P.machine machine.now) plan.now }
    requires signals { length plan.now.places ≡ length (P.shape machine.now) }
    requires started { length started.now ≡ length (P.machine machine.now).combs }
    requires base { widths base.now ≡ P.shape machine.now }
    requires now { now.old ≡ base.now }
    requires next { next.old ≡ base.now }
    ensures { IfOk result (RoundsEnd (P.machine machine.now) started.now base.now) }
{
    let mut groups = numbers(alloc, plan.places.len())?;
    let mut left = machine.written_bits();
    'rounds: loop {
        remake_all(
            alloc,
            machine,
            plan,
            started,
            base,
            now,
            groups.as_slice(),
            next,
        )?;
        let changed = changes(alloc, plan, groups.as_slice(), now, next)?;
        if changed.is_empty() {
            return Ok(Ended::Rests(Items::from_vec(copied(alloc, now)?)));
        }
        if left == 0 {
            let ended = last_change(alloc, now, next)?;
            return Ok(ended);
        }
        left -= 1;
        take_vectors(alloc, changed.as_slice(), next, now)?;
        groups = told_groups(alloc, plan, changed.as_slice())?;
    }
}

/// Runs rounds from the base until one changes nothing, or as many as may be needed. The first one runs all started processes,
/// a later one the groups that read a signal that the round before it changed.
pub fn planned_rounds<P: Processes>(
    alloc: Global,
    machine: &P,
    plan: &Plan,
    started: &[bool],
    base: &[Vec4],
) -> Result<Ended, AllocError>
    requires plan { IsPlan (P.machine machine.now) plan.now }
    requires signals { length plan.now.places ≡ length (P.shape machine.now) }
    requires started { length started.now ≡ length (P.machine machine.now).combs }
    requires base { widths base.now ≡ P.shape machine.now }
    ensures { IfOk result (RoundsEnd (P.machine machine.now) started.now base.now) }
{
    let mut now = copied(alloc, base)?;
    let mut next = copied(alloc, base)?;
    rounds_from_base(alloc, machine, plan, started, base, &mut now, &mut next)
}

/// Runs rounds by a plan, if there is one, and else all started processes in each round.
pub fn rounds_by<P: Processes>(
    alloc: Global,
    machine: &P,
    plan: &Option<Plan>,
    started: &[bool],
    base: &[Vec4],
) -> Result<Ended, AllocError>
    requires plan { FitsPlan (P.machine machine.now) (length (P.shape machine.now)) plan.now }
    requires started { length started.now ≡ length (P.machine machine.now).combs }
    requires base { widths base.now ≡ P.shape machine.now }
    ensures { IfOk result (RoundsEnd (P.machine machine.now) started.now base.now) }
{
    match plan {
        None => rounds(alloc, machine, started, base),
        Some(plan) => planned_rounds(alloc, machine, plan, started, base),
    }
}
