//! Runs of processes on what signals hold (IEEE 1364-2005 clauses 6.1, 9.9 and 12.3.9).

ghost use Rattle.std.specs.Prelude.{◌≡◌, ◌≤◌, false, [], IfOk};
ghost use Rattle.v_meaning.specs.Modules.{port_target, port_value};
ghost use Rattle.v_meaning.specs.Runs.{begun};
ghost use Rattle.v_meaning.specs.Statements as means;
ghost use Rattle.v_meaning.specs.Values.{meaning};
ghost use Rattle.v_eval.specs.Holding.{holding};
ghost use Rattle.v_eval.specs.Limits.{limits, most_given};
ghost use Rattle.v_exec.specs.Inside.{NamesFit};
ghost use Rattle.v_exec.specs.Limits.{branch_most};
ghost use Rattle.v_exec.specs.Modules.{scope_in, signals_in, FunctionsNarrow};
ghost use Rattle.v_processes.specs.Processes.{does_in, port_named};
ghost use Rattle.v_run.specs.Limits.{target_most};
ghost use Rattle.v_steps.specs.Steps.{ran, Comes, DoesFit, DoesNarrow, PortFits};

use crate::ports::{from_port, into_port};
use b4_core::Vec4;
use std::alloc::{AllocError, Global};
use v_eval::Module;
use v_exec::{Ran, run_assignment, run_process};
use v_processes::{Does, Port};
use v_run::Pieces;
use v_tree::{VBranch, VExpr, VLval};

// A run that leaves nothing pending.
fn at_once(alloc: Global, written: Pieces) -> Ran
    ensures written { result.written ≡ written }
    ensures pending { result.pending ≡ [] }
{
    Ran {
        written,
        pending: Pieces::new(alloc),
    }
}

// A run of a continuous assignment.
#[tactic(auto, using(crate::proofs::Stepping::running))]
fn run_assign(
    alloc: Global,
    of: &Module<'_>,
    first: u32,
    depth: usize,
    signals: &[Vec4],
    to: &VLval,
    value: &VExpr,
) -> Result<Ran, AllocError>
    requires functions { FunctionsNarrow first of.now }
    requires target { target_most to.now (scope_in first depth of.now) ≤ 128 }
    requires narrow { most_given ((means.target to.now).width (scope_in first depth of.now)) (limits value.now) (scope_in first depth of.now) ≤ 128 }
    ensures { IfOk result (Comes (λ ws. NamesFit ws (signals_in first of.now)) ((means.assignment false (means.target to.now) (meaning value.now)).run (scope_in first depth of.now) (holding signals.now [] []) begun)) }
{
    let written = run_assignment(alloc, of, first, depth, signals, to, value)?;
    Ok(at_once(alloc, written))
}

// A run of the body of an `always`.
#[tactic(auto, using(crate::proofs::Stepping::running))]
fn run_body(
    alloc: Global,
    of: &Module<'_>,
    first: u32,
    depth: usize,
    signals: &[Vec4],
    body: &VBranch,
) -> Result<Ran, AllocError>
    requires functions { FunctionsNarrow first of.now }
    requires narrow { branch_most body.now (scope_in first depth of.now) ≤ 128 }
    ensures { IfOk result (Comes (λ ws. NamesFit ws (signals_in first of.now)) ((means.doing_of body.now).run (scope_in first depth of.now) (holding signals.now [] []) begun)) }
{
    let run = run_process(alloc, of, first, depth, signals, body)?;
    Ok(run)
}

// A run of a connection to an input.
#[tactic(auto, using(crate::proofs::Stepping::running))]
fn run_into(
    alloc: Global,
    of: &Module<'_>,
    first: u32,
    depth: usize,
    signals: &[Vec4],
    port: Port,
    value: &VExpr,
) -> Result<Ran, AllocError>
    requires functions { FunctionsNarrow first of.now }
    requires narrow { most_given port.bits (limits value.now) (scope_in first depth of.now) ≤ 128 }
    ensures { IfOk result (Comes (PortFits port) ((means.assignment false (port_target (port_named port)) (meaning value.now)).run (scope_in first depth of.now) (holding signals.now [] []) begun)) }
{
    let written = into_port(alloc, of, first, depth, signals, port, value)?;
    Ok(at_once(alloc, written))
}

// A run of a connection to an output.
#[tactic(auto, using(crate::proofs::Stepping::running))]
fn run_from(
    alloc: Global,
    of: &Module<'_>,
    first: u32,
    depth: usize,
    signals: &[Vec4],
    to: &VLval,
    port: Port,
) -> Result<Ran, AllocError>
    requires functions { FunctionsNarrow first of.now }
    requires narrow { target_most to.now (scope_in first depth of.now) ≤ 128 }
    ensures { IfOk result (Comes (λ ws. NamesFit ws (signals_in first of.now)) ((means.assignment false (means.target to.now) (port_value (port_named port))).run (scope_in first depth of.now) (holding signals.now [] []) begun)) }
{
    let written = from_port(alloc, of, first, depth, signals, to, port)?;
    Ok(at_once(alloc, written))
}

/// What a process writes by what signals hold, in an instance of a module whose signals are numbered from `first` on and
/// where calls go so deep. Or want of memory.
pub fn run_does(
    alloc: Global,
    of: &Module<'_>,
    first: u32,
    depth: usize,
    signals: &[Vec4],
    does: &Does<'_>,
) -> Result<Ran, AllocError>
    requires functions { FunctionsNarrow first of.now }
    requires narrow { DoesNarrow does.now (scope_in first depth of.now) }
    ensures { IfOk result (Comes (DoesFit does.now (signals_in first of.now)) (ran (does_in does.now (scope_in first depth of.now)) (holding signals.now [] []))) }
{
    match does {
        Does::Assign { to, value } => run_assign(alloc, of, first, depth, signals, to, value),
        Does::Star(body) => run_body(alloc, of, first, depth, signals, body),
        Does::Edges { edges: _, body } => run_body(alloc, of, first, depth, signals, body),
        Does::Into { port, value } => run_into(alloc, of, first, depth, signals, *port, value),
        Does::From { to, port } => run_from(alloc, of, first, depth, signals, to, *port),
    }
}
