//! What the rules look at, and the least break.

ghost use Rattle.std.specs.Prelude.{◌≡◌, ◌≤◌, ◌^◌, length, IfOk};
ghost use Rattle.comb_order.specs.Bits.{KeepsLimits};
ghost use Rattle.design_breaks.specs.Breaks as B;
ghost use Rattle.edge_breaks.specs.Joins.{LinksStand};
ghost use Rattle.flow_breaks.specs.Pieces.{AreFound};
ghost use Rattle.proc_rules.specs.Functions.{AreBodies, AreFunctionLoops};
ghost use Rattle.proc_rules.specs.Processes.{AreLoops};
ghost use Rattle.unroll_laws.specs.Bodies.{DesignFits};
ghost use Rattle.loop_rules.specs.Looked.{AreProcesses, AreFunctions};

use crate::{function_flows, function_loops, process_flows, process_loops};
use design_breaks::Break;
use flow_sets::Found;
use memory_breaks::too_wide;
use proc_rules::{Loops, check_processes};
use std::alloc::{AllocError, Global};
use sv_source::Items;
use sv_types::Design;

/// What is known of some bodies, in their order.
#[derive(Drop)]
pub struct Looked {
    /// How each breaks the rules on loops.
    pub loops: Items<Loops>,
    /// What is known of each before it runs, if it can be unrolled.
    pub flows: Items<Option<Found>>,
}

fn look_at_processes(alloc: Global, design: &Design) -> Result<Looked, AllocError>
    requires fits { DesignFits design.now }
    ensures { IfOk result (λ l. AreProcesses design.now l) }
{
    let loops = process_loops(alloc, design)?;
    let flows = process_flows(alloc, design, loops.as_slice())?;
    Ok(Looked { loops, flows })
}

fn look_at_functions(alloc: Global, design: &Design) -> Result<Looked, AllocError>
    requires fits { DesignFits design.now }
    ensures { IfOk result (λ l. AreFunctions design.now l) }
{
    let loops = function_loops(alloc, design)?;
    let flows = function_flows(alloc, design, loops.as_slice())?;
    Ok(Looked { loops, flows })
}

// The least break, by what is known of all bodies.
fn break_by(
    alloc: Global,
    design: &Design,
    processes: &Looked,
    functions: &Looked,
) -> Result<Option<Break>, AllocError>
    requires limits { KeepsLimits design.now }
    requires few { length design.now.signals ≤ 2 ^ 32 }
    requires links { LinksStand design.now }
    requires fits { DesignFits design.now }
    requires processes { AreProcesses design.now processes.now }
    requires functions { AreFunctions design.now functions.now }
    ensures { IfOk result (λ r. B.least_of (B.breaks design.now) ≡ r) }
{
    let found = processes.flows.as_slice();
    let wide = too_wide(alloc, design, found)?;
    check_processes(
        alloc,
        design,
        found,
        processes.loops.as_slice(),
        functions.flows.as_slice(),
        functions.loops.as_slice(),
        wide,
    )
}

/// The least break of the rules on processes of a design, or none where it breaks none of them: E601, E603 to E608, E611, E701 and
/// E703. It fails for want of memory alone.
pub fn least_break(alloc: Global, design: &Design) -> Result<Option<Break>, AllocError>
    requires limits { KeepsLimits design.now }
    requires few { length design.now.signals ≤ 2 ^ 32 }
    requires links { LinksStand design.now }
    requires fits { DesignFits design.now }
    ensures { IfOk result (λ r. B.least_of (B.breaks design.now) ≡ r) }
{
    let processes = look_at_processes(alloc, design)?;
    let functions = look_at_functions(alloc, design)?;
    break_by(alloc, design, &processes, &functions)
}
