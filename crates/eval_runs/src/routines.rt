//! Calls of tasks and void functions (IEEE 1800-2017 clause 13.5).

ghost use Rattle.eval_parts.specs.Steps.{is_held};
ghost use Rattle.eval_exprs.specs.Calls.{CallsRun};
ghost use Rattle.eval_exprs.specs.Held.{formals as formals_in};
ghost use Rattle.eval_stmts.specs.Stepping.{GoesOn};
ghost use Rattle.eval_stmts.specs.Targets.{RoutineFits, routine_step};

use crate::outputs::copy_all_out;
use eval_exprs::{Call, Called, Scope, Vectors, formals_of};
use eval_parts::Halt;
use eval_stmts::{Env, take_all_in};
use std::alloc::Global;
use sv_types::Expr;

/// Calls a task or void function: the inputs are passed, `calls` runs it, and the outputs are assigned.
pub fn call_routine<C: Fn(Call) -> Result<Called, Halt>>(
    alloc: Global,
    calls: &C,
    scope: Scope<'_>,
    function: u32,
    actuals: &[Expr],
    env: &mut Env,
) -> Result<(), Halt>
    requires calls { CallsRun (C.IsAlwaysCallable calls.now) (C.post calls.now) scope }
    requires fits { RoutineFits function actuals.now (formals_in scope) (is_held env.old.signals.items) }
    ensures { GoesOn result scope.entry (routine_step function actuals.now) env.old env.new }
{
    let formals = formals_of(scope.functions, function);
    let passed = take_all_in(alloc, calls, scope, formals, actuals, env)?;
    let Called { finals, left, .. } = calls(Call {
        function,
        passed: Vectors::from_vec(passed),
        left: env.budget,
    })?;
    env.budget = left;
    copy_all_out(
        alloc,
        calls,
        scope,
        formals,
        actuals,
        finals.as_slice(),
        env,
    )
}
