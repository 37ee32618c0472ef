//! What is known of calls of tasks and void functions (IEEE 1800-2017 clause 13.5): the inputs are read, and then the outputs are
//! written in the order of the formals.

ghost use Rattle.std.specs.Prelude.{◌≡◌, ◌≤◌, true, map};
ghost use Rattle.sv_types.specs.Expressions.{meaning};
ghost use Rattle.sv_types.specs.Flows as F;
ghost use Rattle.sv_types.specs.Functions.{parameter};
ghost use Rattle.eval_parts.specs.Limits.{FitsAlone};
ghost use Rattle.eval_forms.specs.Callees.{formals_in};
ghost use Rattle.eval_runs.specs.Functions.{AllCanRun};
ghost use Rattle.eval_stmts.specs.Targets.{ActualsFit};
ghost use Rattle.expr_flows.specs.Full.{is_full, all_full};
ghost use Rattle.expr_flows.specs.Known.{sight};
ghost use Rattle.part_flows.specs.Calls.{InputGives, InputsGive, OutputGives, FurtherGives};
ghost use Rattle.flow_sets.specs.Ends.{AreKnown};
ghost use Rattle.part_flows.specs.Flows.{FlowGives};

use bit_sets::Uses;
use eval_forms::formals_of;
use expr_flows::{FlowFail, Known, add_reads, add_target};
use flow_sets::{Found, Writes, and_then, idle, reading, writing};
use std::alloc::Global;
use sv_types::{Expr, Formal, Way};

// Adds what an input reads.
fn add_input(
    alloc: Global,
    known: Known<'_>,
    way: Way,
    e: &Expr,
    to: &mut Uses,
) -> Result<(), FlowFail>
    requires functions { AllCanRun known.functions.now }
    requires fits { FitsAlone (meaning e.now) (formals_in known.functions.now) }
    requires full { is_full (formals_in known.functions.now) e.now ≡ true }
    ensures { InputGives result known.entry way e.now to.old to.new }
{
    match way {
        Way::Output => Ok(()),
        Way::Input => {
            let _constant = add_reads(alloc, known, e, to)?;
            Ok(())
        }
        Way::Inout => {
            let _constant = add_reads(alloc, known, e, to)?;
            Ok(())
        }
    }
}

// What the inputs read, as far as there are both formals and actuals.
fn inputs(
    alloc: Global,
    known: Known<'_>,
    formals: &[Formal],
    actuals: &[Expr],
) -> Result<Uses, FlowFail>
    requires functions { AllCanRun known.functions.now }
    requires fits { ActualsFit (map parameter formals.now) actuals.now (formals_in known.functions.now) }
    requires full { all_full (formals_in known.functions.now) actuals.now ≡ true }
    ensures { InputsGive result known.entry (map parameter formals.now) actuals.now }
{
    let count = formals.len().min(actuals.len());
    let mut reads = Uses::new(alloc);
    for i in 0..count {
        add_input(alloc, known, formals[i].way, &actuals[i], &mut reads)?;
    }
    Ok(reads)
}

// The indices of an output are read, and then it is written.
fn target_flow(alloc: Global, known: Known<'_>, e: &Expr) -> Result<Found, FlowFail>
    requires functions { AllCanRun known.functions.now }
    requires fits { FitsAlone (meaning e.now) (formals_in known.functions.now) }
    requires full { is_full (formals_in known.functions.now) e.now ≡ true }
    ensures { OutputGives result known.entry e.now (F.and_then (F.reading ((meaning e.now).indices (sight known.entry))) (F.writing ((meaning e.now).writes (sight known.entry)))) }
{
    let mut reads = Uses::new(alloc);
    let mut writes = Writes::new(alloc);
    add_target(alloc, known, e, &mut reads, &mut writes)?;
    let first = reading(alloc, reads)?;
    let then = writing(alloc, writes)?;
    Ok(and_then(alloc, first, then)?)
}

// What an actual takes out.
fn output(alloc: Global, known: Known<'_>, way: Way, e: &Expr) -> Result<Found, FlowFail>
    requires functions { AllCanRun known.functions.now }
    requires fits { FitsAlone (meaning e.now) (formals_in known.functions.now) }
    requires full { is_full (formals_in known.functions.now) e.now ≡ true }
    ensures { OutputGives result known.entry e.now (F.writes_out way (meaning e.now) (sight known.entry)) }
{
    match way {
        Way::Input => Ok(idle(alloc, true)),
        Way::Output => target_flow(alloc, known, e),
        Way::Inout => target_flow(alloc, known, e),
    }
}

// One more output behind what is known already.
fn further(
    alloc: Global,
    known: Known<'_>,
    before: Found,
    way: Way,
    e: &Expr,
) -> Result<Found, FlowFail>
    requires functions { AllCanRun known.functions.now }
    requires before { AreKnown before.ends }
    requires fits { FitsAlone (meaning e.now) (formals_in known.functions.now) }
    requires full { is_full (formals_in known.functions.now) e.now ≡ true }
    ensures { FurtherGives result known.entry before way e.now }
{
    let one = output(alloc, known, way, e)?;
    Ok(and_then(alloc, before, one)?)
}

// What the outputs are written.
fn outputs(
    alloc: Global,
    known: Known<'_>,
    formals: &[Formal],
    actuals: &[Expr],
) -> Result<Found, FlowFail>
    requires functions { AllCanRun known.functions.now }
    requires fits { ActualsFit (map parameter formals.now) actuals.now (formals_in known.functions.now) }
    requires full { all_full (formals_in known.functions.now) actuals.now ≡ true }
    ensures { FlowGives result known.entry actuals.now (F.all_written_out (map parameter formals.now) (map meaning actuals.now) (sight known.entry)) }
{
    let count = formals.len().min(actuals.len());
    let mut found = idle(alloc, true);
    for i in 0..count {
        found = further(alloc, known, found, formals[i].way, &actuals[i])?;
    }
    Ok(found)
}

/// A call of a task or void function.
pub fn call_flow(
    alloc: Global,
    known: Known<'_>,
    function: u32,
    actuals: &[Expr],
) -> Result<Found, FlowFail>
    requires functions { AllCanRun known.functions.now }
    requires fits { ActualsFit (formals_in known.functions.now function) actuals.now (formals_in known.functions.now) }
    requires full { all_full (formals_in known.functions.now) actuals.now ≡ true }
    ensures { FlowGives result known.entry actuals.now (F.calling function (map meaning actuals.now) (sight known.entry)) }
{
    let formals = formals_of(known.functions, function);
    let outs = outputs(alloc, known, formals, actuals)?;
    let reads = inputs(alloc, known, formals, actuals)?;
    let first = reading(alloc, reads)?;
    Ok(and_then(alloc, first, outs)?)
}
