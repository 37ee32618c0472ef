//! What tasks and void functions hand back (IEEE 1800-2017 clause 13.5).

ghost use Rattle.std.specs.Prelude.{◌≡◌, ◌≤◌, map};
ghost use Rattle.sv_types.specs.Functions.{parameter};
ghost use Rattle.sv_types.specs.Expressions.{meaning};
ghost use Rattle.sv_types.specs.Statements.{roots_by_way, actual_roots};
ghost use Rattle.eval_parts.specs.Limits.{FitsAlone};
ghost use Rattle.eval_parts.specs.Steps.{is_held};
ghost use Rattle.eval_exprs.specs.Calls.{CallsRun};
ghost use Rattle.eval_exprs.specs.Held.{formals as formals_of};
ghost use Rattle.eval_stmts.specs.Environments.{AllHeld, SameSlots, standing};
ghost use Rattle.eval_stmts.specs.Parts.{TargetGives};
ghost use Rattle.eval_stmts.specs.Routines.{copies_step};
ghost use Rattle.eval_stmts.specs.Stepping.{GoesOn};
ghost use Rattle.eval_stmts.specs.Targets.{ActualsFit};
ghost use Rattle.eval_runs.specs.Forms.{copy_step, hand_step};

use b4_core::Vec4;
use eval_exprs::{Call, Called, Held, Scope};
use eval_parts::{Halt, extended, is_signed, own_width};
use eval_stmts::{Env, Update, collect, write_all};
use std::alloc::Global;
use sv_types::{Expr, Formal, Way};

// Collects the updates that give a value to an actual.
fn collect_in<C: Fn(Call) -> Result<Called, Halt>>(
    alloc: Global,
    calls: &C,
    scope: Scope<'_>,
    e: &Expr,
    value: &Vec4,
    to: &mut Vec<Update>,
    env: &mut Env,
) -> Result<(), Halt>
    requires calls { CallsRun (C.IsAlwaysCallable calls.now) (C.post calls.now) scope }
    requires fits { FitsAlone (meaning e.now) (formals_of scope) }
    requires held { AllHeld (meaning e.now).roots (is_held env.old.signals.items) }
    ensures same { SameSlots env.old env.new }
    ensures gives { TargetGives result (meaning e.now) value.now (standing scope.entry env.old) to.old.items to.new.items env.old.budget env.new.budget }
{
    let held = Held {
        signals: env.signals.as_slice(),
        locals: env.locals.as_slice(),
        scope,
    };
    collect(alloc, calls, held, e, value, to, &mut env.budget)
}

// Assigns the last value of a formal to its actual.
fn copy_out<C: Fn(Call) -> Result<Called, Halt>>(
    alloc: Global,
    calls: &C,
    scope: Scope<'_>,
    formal: &Formal,
    e: &Expr,
    last: &Vec4,
    env: &mut Env,
) -> Result<(), Halt>
    requires calls { CallsRun (C.IsAlwaysCallable calls.now) (C.post calls.now) scope }
    requires fits { FitsAlone (meaning e.now) (formals_of scope) }
    requires held { AllHeld (meaning e.now).roots (is_held env.old.signals.items) }
    ensures { GoesOn result scope.entry (copy_step (parameter formal.now) (meaning e.now) last.now) env.old env.new }
{
    let given = extended(alloc, last, own_width(e), is_signed(&formal.local.of))?;
    let mut updates = Vec::new(alloc);
    collect_in(alloc, calls, scope, e, &given, &mut updates, env)?;
    Ok(write_all(alloc, &updates, env)?)
}

// Hands a formal back, unless it is an input.
fn hand_back<C: Fn(Call) -> Result<Called, Halt>>(
    alloc: Global,
    calls: &C,
    scope: Scope<'_>,
    formal: &Formal,
    e: &Expr,
    last: &Vec4,
    env: &mut Env,
) -> Result<(), Halt>
    requires calls { CallsRun (C.IsAlwaysCallable calls.now) (C.post calls.now) scope }
    requires fits { FitsAlone (meaning e.now) (formals_of scope) }
    requires held { AllHeld (roots_by_way formal.now.way (meaning e.now)) (is_held env.old.signals.items) }
    ensures { GoesOn result scope.entry (hand_step (parameter formal.now) (meaning e.now) last.now) env.old env.new }
{
    match formal.way {
        Way::Input => Ok(()),
        Way::Output => copy_out(alloc, calls, scope, formal, e, last, env),
        Way::Inout => copy_out(alloc, calls, scope, formal, e, last, env),
    }
}

/// Assigns what formals held at the end to their actuals, in the order of the formals, as far as there are all three.
pub fn copy_all_out<C: Fn(Call) -> Result<Called, Halt>>(
    alloc: Global,
    calls: &C,
    scope: Scope<'_>,
    formals: &[Formal],
    actuals: &[Expr],
    finals: &[Vec4],
    env: &mut Env,
) -> Result<(), Halt>
    requires calls { CallsRun (C.IsAlwaysCallable calls.now) (C.post calls.now) scope }
    requires fits { ActualsFit (map parameter formals.now) actuals.now (formals_of scope) }
    requires held { AllHeld (actual_roots (map parameter formals.now) (map meaning actuals.now)) (is_held env.old.signals.items) }
    ensures { GoesOn result scope.entry (copies_step (map parameter formals.now) (map meaning actuals.now) finals.now) env.old env.new }
{
    let count = formals.len().min(actuals.len()).min(finals.len());
    for i in 0..count {
        hand_back(
            alloc,
            calls,
            scope,
            &formals[i],
            &actuals[i],
            &finals[i],
            env,
        )?;
    }
    Ok(())
}
