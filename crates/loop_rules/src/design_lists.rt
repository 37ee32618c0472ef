//! What is known of all bodies.

ghost use Rattle.std.specs.Prelude.{IfOk};
ghost use Rattle.unroll_laws.specs.Bodies.{DesignFits};
ghost use Rattle.flow_breaks.specs.Pieces.{AreFound};
ghost use Rattle.proc_rules.specs.Processes.{AreLoops};
ghost use Rattle.proc_rules.specs.Functions.{AreBodies, AreFunctionLoops};

use crate::design_bodies::found_of;
use flow_sets::Found;
use proc_rules::Loops;
use std::alloc::{AllocError, Global};
use sv_source::Items;
use sv_types::Design;

/// What is known of each process of a design before it runs, in their order, if it breaks no rule on loops.
pub fn process_flows(
    alloc: Global,
    design: &Design,
    loops: &[Loops],
) -> Result<Items<Option<Found>>, AllocError>
    requires fits { DesignFits design.now }
    requires loops { AreLoops design.now loops.now }
    ensures { IfOk result (λ fs. AreFound design.now fs) }
{
    let processes = design.processes.as_slice();
    let mut all = Items::new(alloc);
    for k in 0..processes.len() {
        let one = found_of(alloc, design, &processes[k].body, loops[k])?;
        all.push(one)?;
    }
    Ok(all)
}

/// What is known of the body of each function of a design, in their order, if it breaks no rule on loops.
pub fn function_flows(
    alloc: Global,
    design: &Design,
    loops: &[Loops],
) -> Result<Items<Option<Found>>, AllocError>
    requires fits { DesignFits design.now }
    requires loops { AreFunctionLoops design.now loops.now }
    ensures { IfOk result (λ fs. AreBodies design.now fs) }
{
    let functions = design.functions.as_slice();
    let mut all = Items::new(alloc);
    for k in 0..functions.len() {
        let one = found_of(alloc, design, &functions[k].body, loops[k])?;
        all.push(one)?;
    }
    Ok(all)
}
