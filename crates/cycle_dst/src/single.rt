//! Single runs of processes by their numbers (IEEE 1364-2005 clause 11.3).

ghost use Rattle.std.specs.Prelude.{◌≡◌, ◌<◌, ◌≤◌, ◌^◌, length, OnOk};
ghost use Rattle.round_runner.specs.Stores.{widths};
ghost use Rattle.cycle_dst.specs.Circuits.{Runnable, EdgeCame, RanOver, UpdatedOver, edges_in};

use b4_core::Vec4;
use std::alloc::{AllocError, Global};
use v_modules::Table;
use v_processes::{Does, EdgeOn, Proc};
use v_steps::{run_one, update_one};
use v_stores::has_edge;

// The edges that a process waits for.
fn edges_of<'d>(does: &'d Does<'_>) -> &'d [EdgeOn]
    ensures { result.now ≡ edges_in does.now }
{
    match does {
        Does::Assign { to: _, value: _ } => &[],
        Does::Star(_) => &[],
        Does::Edges { edges, body: _ } => edges.as_slice(),
        Does::Into { port: _, value: _ } => &[],
        Does::From { to: _, port: _ } => &[],
    }
}

/// Whether one of the edges that the process with a number waits for comes from one store to another.
#[tactic(auto, using(crate::proofs::Running::comes))]
pub fn edge_comes(procs: &[Proc<'_>], k: usize, last: &[Vec4], now: &[Vec4]) -> bool
    requires { k < length procs.now }
    ensures { EdgeCame procs.now k last.now now.now result }
{
    let process = &procs[k];
    has_edge(edges_of(&process.does), last, now)
}

/// Puts what the process with a number assigns by what signals hold over a store. Or want of memory.
pub fn run_process(
    alloc: Global,
    tables: &[Table<'_>],
    procs: &[Proc<'_>],
    k: usize,
    held: &[Vec4],
    to: &mut [Vec4],
) -> Result<(), AllocError>
    requires there { k < length procs.now }
    requires runnable { Runnable (widths to.old) tables.now procs.now }
    requires signals_held { length held.now ≤ 2 ^ 32 }
    requires signals { length to.old ≤ 2 ^ 32 }
    ensures { OnOk result (RanOver tables.now procs.now k held.now to.old to.new) }
{
    let process = &procs[k];
    let table = &tables[process.of];
    run_one(alloc, table, process, held, to)
}

/// Puts what the process with a number will update by what signals hold over a store. Or want of memory.
pub fn update_process(
    alloc: Global,
    tables: &[Table<'_>],
    procs: &[Proc<'_>],
    k: usize,
    held: &[Vec4],
    to: &mut [Vec4],
) -> Result<(), AllocError>
    requires there { k < length procs.now }
    requires runnable { Runnable (widths to.old) tables.now procs.now }
    requires signals_held { length held.now ≤ 2 ^ 32 }
    requires signals { length to.old ≤ 2 ^ 32 }
    ensures { OnOk result (UpdatedOver tables.now procs.now k held.now to.old to.new) }
{
    let process = &procs[k];
    let table = &tables[process.of];
    update_one(alloc, table, process, held, to)
}
