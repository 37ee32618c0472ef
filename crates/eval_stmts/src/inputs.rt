//! What is passed to tasks and void functions (IEEE 1800-2017 clause 13.5).

ghost use Rattle.std.specs.Prelude.{◌≡◌, ◌≤◌, map};
ghost use Rattle.sv_types.specs.Layouts.{layout, width_of};
ghost use Rattle.sv_types.specs.Functions.{parameter};
ghost use Rattle.sv_types.specs.Runs.{taken_in};
ghost use Rattle.sv_types.specs.Efforts.{takes_in};
ghost use Rattle.sv_types.specs.Operators.{assigned_width};
ghost use Rattle.sv_types.specs.Expressions.{meaning};
ghost use Rattle.eval_parts.specs.Limits.{Fits};
ghost use Rattle.eval_parts.specs.Targets.{AllNarrow};
ghost use Rattle.eval_exprs.specs.Calls.{CallsRun};
ghost use Rattle.eval_exprs.specs.Held.{formals as formals_of};
ghost use Rattle.eval_stmts.specs.Environments.{standing, SameSlots};
ghost use Rattle.eval_stmts.specs.Routines.{OneTaken, TakesIn};
ghost use Rattle.eval_stmts.specs.Targets.{ActualsFit};

use crate::env::Env;
use crate::values::assigned_in;
use crate::writes::default_bits_of;
use b4_core::Vec4;
use eval_exprs::{Call, Called, Scope};
use eval_parts::Halt;
use std::alloc::Global;
use sv_types::{Expr, Formal, Way};

// What is passed to a formal: an actual, or the default where it is an output.
fn take_in<C: Fn(Call) -> Result<Called, Halt>>(
    alloc: Global,
    calls: &C,
    scope: Scope<'_>,
    formal: &Formal,
    e: &Expr,
    env: &mut Env,
) -> Result<Vec4, Halt>
    requires calls { CallsRun (C.IsAlwaysCallable calls.now) (C.post calls.now) scope }
    requires narrow { width_of formal.now.local.of ≤ 4194304 }
    requires fits { Fits (meaning e.now) (formals_of scope) (assigned_width (layout formal.now.local.of).two_state (meaning e.now)) }
    ensures same { SameSlots env.old env.new }
    ensures gives { OneTaken result (parameter formal.now) (meaning e.now) (standing scope.entry env.old) env.old.budget env.new.budget }
{
    match formal.way {
        Way::Input => assigned_in(alloc, calls, scope, &formal.local.of, e, env),
        Way::Output => Ok(default_bits_of(alloc, &formal.local.of)?),
        Way::Inout => assigned_in(alloc, calls, scope, &formal.local.of, e, env),
    }
}

/// What a call passes to formals, as far as there are both formals and actuals.
pub fn take_all_in<C: Fn(Call) -> Result<Called, Halt>>(
    alloc: Global,
    calls: &C,
    scope: Scope<'_>,
    formals: &[Formal],
    actuals: &[Expr],
    env: &mut Env,
) -> Result<Vec<Vec4>, Halt>
    requires calls { CallsRun (C.IsAlwaysCallable calls.now) (C.post calls.now) scope }
    requires narrow { AllNarrow formals.now }
    requires fits { ActualsFit (map parameter formals.now) actuals.now (formals_of scope) }
    ensures same { SameSlots env.old env.new }
    ensures gives { TakesIn result (map parameter formals.now) (map meaning actuals.now) (standing scope.entry env.old) env.old.budget env.new.budget }
{
    let count = formals.len().min(actuals.len());
    let mut passed = Vec::with_capacity(alloc, count)?;
    for i in 0..count {
        passed.push(take_in(alloc, calls, scope, &formals[i], &actuals[i], env)?)?;
    }
    Ok(passed)
}
