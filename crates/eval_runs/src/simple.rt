//! Statements without statements in them.

ghost use Rattle.std.specs.Prelude.{◌≡◌};
ghost use Rattle.sv_types.specs.Runs.{is_normal};
ghost use Rattle.eval_parts.specs.Steps.{is_held};
ghost use Rattle.eval_exprs.specs.Calls.{CallsRun};
ghost use Rattle.eval_exprs.specs.Held.{formals};
ghost use Rattle.eval_exprs.specs.declared.held.Scope.{Scope};
ghost use Rattle.eval_stmts.specs.Environments.{SameSlots};
ghost use Rattle.eval_stmts.specs.Stepping.{Counts, StepGives, counted_step};
ghost use Rattle.eval_stmts.specs.Targets.{AssignFits, RoutineFits, assign_step, routine_step};
ghost use Rattle.eval_runs.specs.Forms.{jump_step};

use crate::routines::call_routine;
use eval_exprs::{Call, Called, Scope};
use eval_parts::Halt;
use eval_stmts::{Env, assign, count};
use std::alloc::Global;
use sv_types::{Expr, Outcome};

/// Whether the statements behind run too.
pub fn goes_on(outcome: Outcome) -> bool
    ensures { result ≡ is_normal outcome }
{
    match outcome {
        Outcome::Normal => true,
        Outcome::Break => false,
        Outcome::Continue => false,
        Outcome::Return => false,
    }
}

/// One more statement runs.
pub fn count_in(env: &mut Env) -> Result<(), Halt>
    ensures same { SameSlots env.old env.new }
    ensures counts { Counts result env.old.budget env.new.budget }
{
    count(&mut env.budget)
}

/// Ends in a way.
pub fn jump(outcome: Outcome, env: &mut Env) -> Result<Outcome, Halt>
    ensures { (sc : Scope) → StepGives result sc (counted_step (jump_step outcome)) env.old env.new }
{
    count_in(env)?;
    Ok(outcome)
}

/// Runs an assignment.
pub fn run_assign<C: Fn(Call) -> Result<Called, Halt>>(
    alloc: Global,
    calls: &C,
    scope: Scope<'_>,
    to: &[Expr],
    value: &Expr,
    later: bool,
    env: &mut Env,
) -> Result<Outcome, Halt>
    requires calls { CallsRun (C.IsAlwaysCallable calls.now) (C.post calls.now) scope }
    requires fits { AssignFits to.now value.now (formals scope) (is_held env.old.signals.items) }
    ensures { StepGives result scope.entry (counted_step (assign_step later to.now value.now)) env.old env.new }
{
    count_in(env)?;
    assign(alloc, calls, scope, to, value, later, env)?;
    Ok(Outcome::Normal)
}

/// Runs a call of a task or void function.
pub fn run_routine<C: Fn(Call) -> Result<Called, Halt>>(
    alloc: Global,
    calls: &C,
    scope: Scope<'_>,
    function: u32,
    actuals: &[Expr],
    env: &mut Env,
) -> Result<Outcome, Halt>
    requires calls { CallsRun (C.IsAlwaysCallable calls.now) (C.post calls.now) scope }
    requires fits { RoutineFits function actuals.now (formals scope) (is_held env.old.signals.items) }
    ensures { StepGives result scope.entry (counted_step (routine_step function actuals.now)) env.old env.new }
{
    count_in(env)?;
    call_routine(alloc, calls, scope, function, actuals, env)?;
    Ok(Outcome::Normal)
}
