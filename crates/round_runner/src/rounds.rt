//! The rounds over one set of started processes.

ghost use Rattle.std.specs.Prelude.{◌≡◌, ◌<◌, length, slice_index_or, IfOk};
ghost use Rattle.round_runner.specs.Stores.{widths, vector_of};
ghost use Rattle.round_runner.specs.Rounds.{RoundsEnd};

use crate::processes::Processes;
use crate::round::round;
use crate::stores::{copied, copied_vector, first_change};
use b4_core::{Items, Valuation, Vec4};
use std::alloc::{AllocError, Global};

/// A signal that a round changed.
#[derive(Debug, Drop)]
pub struct Change {
    /// The signal.
    pub signal: usize,
    /// What it held before the round.
    pub before: Vec4,
    /// What it held after it.
    pub after: Vec4,
}

/// How rounds end.
#[derive(Debug, Drop)]
pub enum Ended {
    /// A round changed nothing of this.
    Rests(Valuation),
    /// As many rounds as may be needed each changed a bit. The first signal that the last one changed.
    Changes(Change),
}

/// The change of a signal from one store to another.
pub fn change_at(
    alloc: Global,
    signal: usize,
    old: &[Vec4],
    new: &[Vec4],
) -> Result<Change, AllocError>
    requires old { signal < length old.now }
    requires new { signal < length new.now }
    ensures signal { IfOk result (λ c. c.signal ≡ signal) }
    ensures before { IfOk result (λ c. c.before ≡ vector_of old.now signal) }
    ensures after { IfOk result (λ c. c.after ≡ vector_of new.now signal) }
{
    let before = copied_vector(alloc, &old[signal])?;
    let after = copied_vector(alloc, &new[signal])?;
    Ok(Change {
        signal,
        before,
        after,
    })
}

/// Runs rounds from the base until one changes nothing, or as many as may be needed.
pub fn rounds<P: Processes>(
    alloc: Global,
    machine: &P,
    started: &[bool],
    base: &[Vec4],
) -> Result<Ended, AllocError>
    requires started { length started.now ≡ length (P.machine machine.now).combs }
    requires base { widths base.now ≡ P.shape machine.now }
    ensures { IfOk result (RoundsEnd (P.machine machine.now) started.now base.now) }
{
    let mut now = copied(alloc, base)?;
    let mut left = machine.written_bits();
    'rounds: loop {
        let next = round(alloc, machine, started, base, &now)?;
        match first_change(&now, &next) {
            None => return Ok(Ended::Rests(Items::from_vec(now))),
            Some(signal) => {
                if left == 0 {
                    return Ok(Ended::Changes(change_at(alloc, signal, &now, &next)?));
                }
            }
        }
        left -= 1;
        now = next;
    }
}
