//! What is known of processes whose loops can be unrolled.

ghost use Rattle.std.specs.Prelude.{◌≡◌, ℕ, true, Some, slice_get, IfOk};
ghost use Rattle.sv_types.specs.declared.design.Process.{Process};
ghost use Rattle.eval_runs.specs.Functions.{AllCanRun};
ghost use Rattle.flow_sets.specs.Flows.{IsFlow};
ghost use Rattle.design_breaks.specs.Memories.{flow};
ghost use Rattle.design_breaks.specs.Breaks.{unrolls};
ghost use Rattle.comb_order.specs.Bits.{AreFlows};
ghost use Rattle.unroll_laws.specs.Bodies.{BodyFits, DesignFits};

use flow_sets::Found;
use std::alloc::{AllocError, Global};
use stmt_flows::{StmtFail, body_flow};
use sv_source::Items;
use sv_types::{Design, Process};

// What is known of a process whose loops can be unrolled. Nothing in it takes too long then, and no more statements stand than
// may.
fn process_flow(alloc: Global, design: &Design, process: &Process) -> Result<Found, AllocError>
    requires functions { AllCanRun design.now.functions }
    requires fits { BodyFits process.now.body design.now.functions }
    requires unrolls { unrolls design.now process.now.body ≡ true }
    ensures { IfOk result (λ f. IsFlow f (flow design.now process.now)) }
{
    match body_flow(alloc, design.functions.as_slice(), &process.body) {
        Ok(found) => Ok(found),
        Err(StmtFail::Memory) => Err(AllocError),
        Err(StmtFail::TooLong { .. }) => unreachable!(),
        Err(StmtFail::TooMany) => unreachable!(),
    }
}

/// What is known of each process of a design before it runs, in their order, where the loops of all of them can be unrolled to as
/// many statements as may stand.
pub fn process_flows(alloc: Global, design: &Design) -> Result<Items<Found>, AllocError>
    requires fits { DesignFits design.now }
    requires unrolls { (n : ℕ) (p : Process) → slice_get design.now.processes n ≡ Some p → unrolls design.now p.body ≡ true }
    ensures { IfOk result (λ fs. AreFlows design.now fs) }
{
    let mut flows = Items::new(alloc);
    for process in design.processes.as_slice() {
        let found = process_flow(alloc, design, process)?;
        flows.push(found)?;
    }
    Ok(flows)
}
