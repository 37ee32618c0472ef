//! All rules together.

ghost use Rattle.std.specs.Prelude.{◌≡◌, ◌≤◌, ◌^◌, length, IfOk, flat_map};
ghost use Rattle.eval_forms.specs.Callees.{AllFunctionsFit};
ghost use Rattle.comb_order.specs.Bits.{KeepsLimits};
ghost use Rattle.flow_breaks.specs.Pieces.{AreFound};
ghost use Rattle.edge_breaks.specs.Joins.{LinksStand};
ghost use Rattle.design_breaks.specs.Breaks as B;
ghost use Rattle.least_breaks.specs.Least.{IsLeast};
ghost use Rattle.proc_rules.specs.Processes.{AreLoops};
ghost use Rattle.proc_rules.specs.Functions.{AreBodies, AreFunctionLoops};
ghost use Rattle.proc_rules.specs.Check.{wide_breaks};

use crate::bodies::Loops;
use crate::functions::function_breaks;
use crate::processes::process_breaks;
use call_reach::called;
use comb_order::widths;
use design_breaks::Break;
use edge_breaks::joined;
use flow_breaks::written_twice;
use flow_sets::Found;
use least_breaks::{least_is_least, lesser};
use std::alloc::{AllocError, Global};
use sv_types::Design;

// The least break of all processes.
fn all_processes(
    alloc: Global,
    design: &Design,
    found: &[Option<Found>],
    loops: &[Loops],
) -> Result<Option<Break>, AllocError>
    requires limits { KeepsLimits design.now }
    requires few { length design.now.signals ≤ 2 ^ 32 }
    requires links { LinksStand design.now }
    requires found { AreFound design.now found.now }
    requires loops { AreLoops design.now loops.now }
    ensures { IfOk result (λ r. IsLeast (flat_map (B.process_breaks design.now) (B.numbered design.now 0 design.now.processes)) r) }
{
    let signals = design.signals.as_slice();
    let processes = design.processes.as_slice();
    let widths = widths(alloc, signals)?;
    let marks = joined(alloc, signals, processes, found)?;
    let twice = written_twice(alloc, processes, found)?;
    let own = process_breaks(
        alloc,
        design,
        widths.as_slice(),
        marks.as_slice(),
        found,
        loops,
    )?;
    Ok(lesser(twice, own))
}

// The least break of all functions that are called.
fn all_functions(
    alloc: Global,
    design: &Design,
    bodies: &[Option<Found>],
    loops: &[Loops],
) -> Result<Option<Break>, AllocError>
    requires fit { AllFunctionsFit design.now.functions }
    requires bodies { AreBodies design.now bodies.now }
    requires loops { AreFunctionLoops design.now loops.now }
    ensures { IfOk result (λ r. IsLeast (flat_map (B.function_breaks design.now) (B.numbered design.now 0 design.now.functions)) r) }
{
    let marks = called(
        alloc,
        design.processes.as_slice(),
        design.functions.as_slice(),
    )?;
    function_breaks(alloc, design, marks.as_slice(), bodies, loops)
}

/// The least break of the rules on processes, or none, or want of memory: E601, E603 to E608, E611, E701 and E703. It takes what is
/// found of each process (`found`) and of the body of each function (`bodies`) whose loops can all be unrolled (`stmt_flows`), how
/// each of them breaks the rules on loops, and the least break of E701.
pub fn check_processes(
    alloc: Global,
    design: &Design,
    found: &[Option<Found>],
    process_loops: &[Loops],
    bodies: &[Option<Found>],
    function_loops: &[Loops],
    too_wide: Option<Break>,
) -> Result<Option<Break>, AllocError>
    requires limits { KeepsLimits design.now }
    requires few { length design.now.signals ≤ 2 ^ 32 }
    requires links { LinksStand design.now }
    requires fit { AllFunctionsFit design.now.functions }
    requires found { AreFound design.now found.now }
    requires process_loops { AreLoops design.now process_loops.now }
    requires bodies { AreBodies design.now bodies.now }
    requires function_loops { AreFunctionLoops design.now function_loops.now }
    requires too_wide { IsLeast (wide_breaks design.now) too_wide }
    ensures { IfOk result (λ r. B.least_of (B.breaks design.now) ≡ r) }
{
    let processes = all_processes(alloc, design, found, process_loops)?;
    let functions = all_functions(alloc, design, bodies, function_loops)?;
    least_is_least();
    Ok(lesser(processes, lesser(functions, too_wide)))
}
