//! One settling.

ghost use Rattle.std.specs.Prelude.{◌≡◌, ◌<◌, true, not, length, count_by, IfOk};
ghost use Rattle.round_runner.specs.Stores.{widths};
ghost use Rattle.round_runner.specs.Plans.{FitsPlan};
ghost use Rattle.round_runner.specs.Settling.{Adds, Woken, SettlingEnds};

use crate::plan::Plan;
use crate::planned::rounds_by;
use crate::processes::Processes;
use crate::rounds::Ended;
use b4_core::Vec4;
use std::alloc::{AllocError, Global};

// Whether a process, started or not, is started now.
fn is_added<P: Processes>(machine: &P, i: usize, started: bool, now: &[Vec4]) -> bool
    requires there { i < length (P.machine machine.now).combs }
    requires now { widths now.now ≡ P.shape machine.now }
    ensures { Adds (P.machine machine.now) i started now.now result }
{
    if started {
        false
    } else {
        machine.wakes(i, now)
    }
}

// Starts the processes that wait for a signal that isn't what it was before the first row, and tells whether there are some.
fn wake<P: Processes>(machine: &P, now: &[Vec4], started: &mut [bool]) -> bool
    requires started { length started.old ≡ length (P.machine machine.now).combs }
    requires now { widths now.now ≡ P.shape machine.now }
    ensures woken { Woken (P.machine machine.now) now.now started.old started.new result }
    ensures fewer { result ≡ true → count_by not started.new < count_by not started.old }
{
    let mut more = false;
    for i in 0..started.len() {
        if is_added(machine, i, started[i], now) {
            started[i] = true;
            more = true;
        }
    }
    more
}

/// Settles from a base: the rounds come to rest, and go on from the base with the processes that are woken, until none is.
pub fn settle<P: Processes>(
    alloc: Global,
    machine: &P,
    plan: &Option<Plan>,
    started: &mut [bool],
    base: &[Vec4],
) -> Result<Ended, AllocError>
    requires plan { FitsPlan (P.machine machine.now) (length (P.shape machine.now)) plan.now }
    requires started { length started.old ≡ length (P.machine machine.now).combs }
    requires base { widths base.now ≡ P.shape machine.now }
    ensures { IfOk result (SettlingEnds (P.machine machine.now) base.now started.old started.new) }
{
    'starts: loop {
        match rounds_by(alloc, machine, plan, started, base)? {
            Ended::Changes(change) => return Ok(Ended::Changes(change)),
            Ended::Rests(now) => {
                if !wake(machine, now.as_slice(), started) {
                    return Ok(Ended::Rests(now));
                }
            }
        }
    }
}
