//! The loops of one body.

ghost use Rattle.std.specs.Prelude.{◌≡◌, ◌&&◌, not, is_some, IfOk};
ghost use Rattle.eval_runs.specs.Functions.{AllCanRun};
ghost use Rattle.proc_rules.specs.Processes.{IsLoops};
ghost use Rattle.unroll_laws.specs.Bodies.{BodyFits};

use crate::{least_unbounded, unrolled};
use bound_values::lesser;
use proc_rules::Loops;
use std::alloc::{AllocError, Global};
use sv_types::{Design, Stmt};

// No loop has unknown bounds or writes its variable, and more statements stand than may.
fn is_too_long(unbounded: Option<u32>, left: Option<u32>) -> bool
    ensures { result ≡ (not (is_some unbounded) && not (is_some left)) }
{
    match unbounded {
        Some(_) => false,
        None => match left {
            Some(_) => false,
            None => true,
        },
    }
}

/// How the body of a process or function of a design breaks the rules on loops.
pub fn loops_of(alloc: Global, design: &Design, s: &Stmt) -> Result<Loops, AllocError>
    requires functions { AllCanRun design.now.functions }
    requires fits { BodyFits s.now design.now.functions }
    ensures { IfOk result (λ l. IsLoops design.now s.now l) }
{
    let functions = design.functions.as_slice();
    let unbounded = least_unbounded(alloc, functions, s)?;
    let list = unrolled(alloc, functions, s)?;
    Ok(Loops {
        endless: lesser(unbounded, list.endless),
        too_long: is_too_long(unbounded, list.left),
    })
}
