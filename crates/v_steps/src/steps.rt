//! Single steps of a design: what one of its processes writes, put over a store (IEEE 1364-2005 clause 11.3).

ghost use Rattle.std.specs.Prelude.{◌≡◌, ◌≤◌, ◌^◌, length, OnOk};
ghost use Rattle.round_runner.specs.Stores.{holding, widths, Changed};
ghost use Rattle.v_meaning.specs.Machine.{to_signals};
ghost use Rattle.v_meaning.specs.Modules.{scope_of};
ghost use Rattle.v_exec.specs.Modules.{FunctionsNarrow};
ghost use Rattle.v_modules.specs.Tables.{items_of};
ghost use Rattle.v_processes.specs.Processes.{does_in};
ghost use Rattle.v_steps.specs.Steps.{ran, DoesNarrow, DoesFit};

use crate::runs::run_does;
use b4_core::Vec4;
use std::alloc::{AllocError, Global};
use v_modules::Table;
use v_processes::Proc;
use v_run::put_over;

/// Puts what a process of an instance of a module, whose table this is, assigns by what signals hold over a store. Or want of
/// memory.
#[tactic(auto, using(crate::proofs::Stepping::stepping))]
pub fn run_one(
    alloc: Global,
    table: &Table<'_>,
    process: &Proc<'_>,
    held: &[Vec4],
    to: &mut [Vec4],
) -> Result<(), AllocError>
    requires functions { FunctionsNarrow process.now.first table.now.names }
    requires narrow { DoesNarrow process.now.does (scope_of process.now.first (items_of table.now)) }
    requires fits { DoesFit process.now.does (scope_of process.now.first (items_of table.now)).names (widths to.old) }
    requires signals_held { length held.now ≤ 2 ^ 32 }
    requires signals { length to.old ≤ 2 ^ 32 }
    ensures { OnOk result (Changed (to_signals (ran (does_in process.now.does (scope_of process.now.first (items_of table.now))) (holding held.now)).written) to.old to.new) }
{
    let run = run_does(
        alloc,
        &table.names,
        process.first,
        table.functions,
        held,
        &process.does,
    )?;
    put_over(run.written.as_slice(), to);
    Ok(())
}

/// Puts what a process of an instance of a module, whose table this is, will update by what signals hold over a store. Or want
/// of memory.
#[tactic(auto, using(crate::proofs::Stepping::stepping))]
pub fn update_one(
    alloc: Global,
    table: &Table<'_>,
    process: &Proc<'_>,
    held: &[Vec4],
    to: &mut [Vec4],
) -> Result<(), AllocError>
    requires functions { FunctionsNarrow process.now.first table.now.names }
    requires narrow { DoesNarrow process.now.does (scope_of process.now.first (items_of table.now)) }
    requires fits { DoesFit process.now.does (scope_of process.now.first (items_of table.now)).names (widths to.old) }
    requires signals_held { length held.now ≤ 2 ^ 32 }
    requires signals { length to.old ≤ 2 ^ 32 }
    ensures { OnOk result (Changed (to_signals (ran (does_in process.now.does (scope_of process.now.first (items_of table.now))) (holding held.now)).pending) to.old to.new) }
{
    let run = run_does(
        alloc,
        &table.names,
        process.first,
        table.functions,
        held,
        &process.does,
    )?;
    put_over(run.pending.as_slice(), to);
    Ok(())
}
