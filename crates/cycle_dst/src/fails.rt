//! Why a run of a design has no trace.

ghost use Rattle.std.specs.Prelude.{◌≡◌, map, IfOk};
ghost use Rattle.v_instances.specs.Slots.{signal_of};
ghost use Rattle.cycle_dst.specs.Fails.{is_failure, name_in, Tells};

use b4_core::Vec4;
use round_runner::Change;
use std::alloc::{AllocError, Global};
use sv_source::{Text, at};
use v_instances::Slot;

/// Why a run has no trace.
#[derive(Drop)]
pub enum RunFail {
    /// Want of memory.
    Memory,
    /// A settling of a row doesn't come to rest; this is the first signal that the last of its rounds changed.
    Unsettled {
        /// The row, from 0 on.
        row: u32,
        /// The name with which the signal is declared in its module.
        name: Text,
        /// What it held before that round.
        before: Vec4,
        /// What it held behind it.
        after: Vec4,
    },
}

impl From<AllocError> for RunFail {
    ghost use Rattle.std.specs.Prelude.{◌≡◌};
    ghost use Rattle.cycle_dst.specs.declared.fails.RunFail.TheVariants.{Memory};

    ghost from_gives = { λ _ fail. fail ≡ Memory };

    fn from(_: AllocError) -> Self {
        RunFail::Memory
    }
}

// A row's number as a short one. No machine holds as many rows as one that has none.
fn short(row: usize) -> Result<u32, AllocError>
    ensures { IfOk result (λ n. n ≡ row) }
{
    match u32::try_from(row) {
        Ok(row) => Ok(row),
        Err(_) => Err(AllocError),
    }
}

// The name of the signal with a number; one that isn't there has an empty one.
fn name_of(alloc: Global, slots: &[Slot], signal: usize) -> Result<Text, AllocError>
    ensures { IfOk result (λ name. name ≡ name_in (map signal_of slots.now) signal) }
{
    match at(slots, signal) {
        None => Ok(Text::new(alloc)),
        Some(slot) => slot.name.copy(alloc),
    }
}

// The failure of a row, by the signal that changed.
fn unsettled(
    alloc: Global,
    slots: &[Slot],
    row: usize,
    change: Change,
) -> Result<RunFail, AllocError>
    ensures { IfOk result (is_failure (map signal_of slots.now) row change) }
{
    let row = short(row)?;
    let name = name_of(alloc, slots, change.signal)?;
    Ok(RunFail::Unsettled {
        row,
        name,
        before: change.before,
        after: change.after,
    })
}

/// Why a run of a design with these signals has no trace, by the failure of its machine.
pub fn failed(alloc: Global, slots: &[Slot], fail: round_runner::RunFail) -> RunFail
    ensures { Tells (map signal_of slots.now) fail result }
{
    match fail {
        round_runner::RunFail::Memory => RunFail::Memory,
        round_runner::RunFail::Unsettled(row, change) => {
            match unsettled(alloc, slots, row, change) {
                Ok(fail) => fail,
                Err(_) => RunFail::Memory,
            }
        }
    }
}
