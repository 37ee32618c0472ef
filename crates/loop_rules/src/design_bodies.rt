//! What is known of one body.

ghost use Rattle.std.specs.Prelude.{◌≡◌, ◌||◌, is_some, true, IfOk};
ghost use Rattle.design_breaks.specs.Breaks as B;
ghost use Rattle.eval_runs.specs.Functions.{AllCanRun};
ghost use Rattle.proc_rules.specs.Processes.{IsLoops};
ghost use Rattle.unroll_laws.specs.Bodies.{BodyFits};
ghost use Rattle.loop_rules.specs.Bodies.{IsFoundIn};

use flow_sets::Found;
use proc_rules::Loops;
use std::alloc::{AllocError, Global};
use stmt_flows::{StmtFail, body_flow};
use sv_types::{Design, Stmt};

// Whether a rule on loops is broken.
fn is_broken(loops: Loops) -> bool
    ensures { result ≡ (is_some loops.endless || loops.too_long) }
{
    match loops.endless {
        Some(_) => true,
        None => loops.too_long,
    }
}

// What is known of a body that can be unrolled. Nothing in it takes too long then, and no more statements stand than may.
fn flow_in(alloc: Global, design: &Design, s: &Stmt) -> Result<Option<Found>, AllocError>
    requires functions { AllCanRun design.now.functions }
    requires fits { BodyFits s.now design.now.functions }
    requires unrolls { B.unrolls design.now s.now ≡ true }
    ensures { IfOk result (λ f. IsFoundIn design.now s.now f) }
{
    match body_flow(alloc, design.functions.as_slice(), s) {
        Ok(found) => Ok(Some(found)),
        Err(StmtFail::Memory) => Err(AllocError),
        Err(StmtFail::TooLong { .. }) => Ok(None),
        Err(StmtFail::TooMany) => Ok(None),
    }
}

/// What is known of the body of a process or function before it runs, if it breaks no rule on loops; else none.
pub fn found_of(
    alloc: Global,
    design: &Design,
    s: &Stmt,
    loops: Loops,
) -> Result<Option<Found>, AllocError>
    requires functions { AllCanRun design.now.functions }
    requires fits { BodyFits s.now design.now.functions }
    requires loops { IsLoops design.now s.now loops }
    ensures { IfOk result (λ f. IsFoundIn design.now s.now f) }
{
    if is_broken(loops) {
        return Ok(None);
    }
    flow_in(alloc, design, s)
}
