//! One round.

ghost use Rattle.std.specs.Prelude.{◌≡◌, ◌<◌, length, IfOk, OnOk};
ghost use Rattle.round_runner.specs.Stores.{widths};
ghost use Rattle.round_runner.specs.Rounds.{IsRound};

use crate::processes::Processes;
use crate::stores::copied;
use b4_core::Vec4;
use std::alloc::{AllocError, Global};

// Puts over a store, process by process, what the started ones assign when they are run on `held`.
fn put_round<P: Processes>(
    alloc: Global,
    machine: &P,
    started: &[bool],
    held: &[Vec4],
    to: &mut [Vec4],
) -> Result<(), AllocError>
    requires started { length started.now ≡ length (P.machine machine.now).combs }
    requires held { widths held.now ≡ P.shape machine.now }
    requires to { widths to.old ≡ P.shape machine.now }
    ensures { OnOk result (IsRound (P.machine machine.now) started.now to.old held.now to.new) }
{
    for i in 0..started.len() {
        if started[i] {
            machine.run(alloc, i, held, to)?;
        }
    }
    Ok(())
}

/// The store after a round: the base, overwritten by what each started process assigns when it is run on `held`.
pub fn round<P: Processes>(
    alloc: Global,
    machine: &P,
    started: &[bool],
    base: &[Vec4],
    held: &[Vec4],
) -> Result<Vec<Vec4>, AllocError>
    requires started { length started.now ≡ length (P.machine machine.now).combs }
    requires base { widths base.now ≡ P.shape machine.now }
    requires held { widths held.now ≡ P.shape machine.now }
    ensures { IfOk result (λ made. IsRound (P.machine machine.now) started.now base.now held.now made.items) }
{
    let mut made = copied(alloc, base)?;
    put_round(alloc, machine, started, held, &mut made)?;
    Ok(made)
}
