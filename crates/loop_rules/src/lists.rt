//! The loops of all bodies.

ghost use Rattle.std.specs.Prelude.{IfOk};
ghost use Rattle.unroll_laws.specs.Bodies.{DesignFits};
ghost use Rattle.proc_rules.specs.Processes.{AreLoops};
ghost use Rattle.proc_rules.specs.Functions.{AreFunctionLoops};

use crate::bodies::loops_of;
use proc_rules::Loops;
use std::alloc::{AllocError, Global};
use sv_source::Items;
use sv_types::Design;

/// How each process of a design breaks the rules on loops, in their order.
pub fn process_loops(alloc: Global, design: &Design) -> Result<Items<Loops>, AllocError>
    requires fits { DesignFits design.now }
    ensures { IfOk result (λ ls. AreLoops design.now ls) }
{
    let processes = design.processes.as_slice();
    let mut all = Items::new(alloc);
    for k in 0..processes.len() {
        let one = loops_of(alloc, design, &processes[k].body)?;
        all.push(one)?;
    }
    Ok(all)
}

/// How the body of each function of a design does, in their order.
pub fn function_loops(alloc: Global, design: &Design) -> Result<Items<Loops>, AllocError>
    requires fits { DesignFits design.now }
    ensures { IfOk result (λ ls. AreFunctionLoops design.now ls) }
{
    let functions = design.functions.as_slice();
    let mut all = Items::new(alloc);
    for k in 0..functions.len() {
        let one = loops_of(alloc, design, &functions[k].body)?;
        all.push(one)?;
    }
    Ok(all)
}
