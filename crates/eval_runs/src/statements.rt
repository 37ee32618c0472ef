//! Runs of statements (IEEE 1800-2017 clauses 9.3.1, 10.4 and 12).

ghost use Rattle.std.specs.Prelude.{map};
ghost use Rattle.sv_types.specs.Expressions.{meaning};
ghost use Rattle.sv_types.specs.Statements.{doing, made};
ghost use Rattle.eval_parts.specs.Limits.{FitsAlone};
ghost use Rattle.eval_parts.specs.Steps.{is_held};
ghost use Rattle.eval_exprs.specs.Calls.{CallsRun};
ghost use Rattle.eval_exprs.specs.Held.{formals};
ghost use Rattle.eval_stmts.specs.Controls.{ControlFits, loop_step, variable_step};
ghost use Rattle.eval_stmts.specs.Limits.{StmtFits, AllStmtsFit, ScopeFits, PerhapsFits, AllItemsFit, perhaps};
ghost use Rattle.eval_stmts.specs.Stepping.{StepGives, step_of, counted_step};
ghost use Rattle.eval_stmts.specs.Targets.{CaseFits, select_step, step_or_idle};
ghost use Rattle.eval_runs.specs.Forms.{TurnGives, branch_step, body_step, scope_step, uncounted_step};

use crate::simple::{count_in, goes_on, jump, run_assign, run_routine};
use eval_exprs::{Call, Called, Scope};
use eval_parts::Halt;
use eval_stmts::{Control, Env, MOST_TURNS, chosen_item, is_true_in, set_variable, start_all};
use std::alloc::Global;
use sv_source::Boxed;
use sv_types::{CaseItem, CaseKind, Expr, Local, Outcome, Stmt};

/// Runs a statement, where `calls` runs the functions and tasks that it calls: from each state of a run for which the
/// environment stands it goes to the state for which it stands afterwards.
#[cycle(run)]
pub fn run<C: Fn(Call) -> Result<Called, Halt>>(
    alloc: Global,
    calls: &C,
    scope: Scope<'_>,
    s: &Stmt,
    env: &mut Env,
) -> Result<Outcome, Halt>
    requires calls { CallsRun (C.IsAlwaysCallable calls.now) (C.post calls.now) scope }
    requires fits { StmtFits s.now (formals scope) (is_held env.old.signals.items) }
    ensures { StepGives result scope.entry (step_of (doing s.now)) env.old env.new }
{
    match s {
        Stmt::Block { locals, body } => {
            count_in(env)?;
            run_scope(alloc, calls, scope, locals.as_slice(), body.as_slice(), env)
        }
        Stmt::If { on, body, other } => run_if(alloc, calls, scope, on, body.get(), other, env),
        Stmt::Case {
            kind,
            on,
            items,
            other,
        } => run_case(alloc, calls, scope, *kind, on, items.as_slice(), other, env),
        Stmt::Loop {
            local,
            first,
            test,
            step,
            body,
            ..
        } => {
            let control = Control {
                local: *local,
                first,
                test,
                step,
            };
            run_loop(alloc, calls, scope, control, body.get(), env)
        }
        Stmt::Assign {
            to,
            value,
            later,
            ..
        } => run_assign(alloc, calls, scope, to.as_slice(), value, *later, env),
        Stmt::Call {
            function,
            actuals,
            ..
        } => run_routine(alloc, calls, scope, *function, actuals.as_slice(), env),
        Stmt::Made {
            locals,
            before,
            body,
        } => run_made(
            alloc,
            calls,
            scope,
            locals.as_slice(),
            before.as_slice(),
            body,
            env,
        ),
        Stmt::Break => jump(Outcome::Break, env),
        Stmt::Continue => jump(Outcome::Continue, env),
        Stmt::Return => jump(Outcome::Return, env),
    }
}

// Runs a statement that may be left out.
#[cycle(run)]
fn run_perhaps<C: Fn(Call) -> Result<Called, Halt>>(
    alloc: Global,
    calls: &C,
    scope: Scope<'_>,
    s: &Option<Boxed<Stmt>>,
    env: &mut Env,
) -> Result<Outcome, Halt>
    requires calls { CallsRun (C.IsAlwaysCallable calls.now) (C.post calls.now) scope }
    requires fits { PerhapsFits s.now (formals scope) (is_held env.old.signals.items) }
    ensures { StepGives result scope.entry (step_or_idle (perhaps s.now)) env.old env.new }
{
    match s {
        Some(s) => run(alloc, calls, scope, s.get(), env),
        None => Ok(Outcome::Normal),
    }
}

// Runs an `if`.
#[cycle(run)]
fn run_if<C: Fn(Call) -> Result<Called, Halt>>(
    alloc: Global,
    calls: &C,
    scope: Scope<'_>,
    on: &Expr,
    body: &Stmt,
    other: &Option<Boxed<Stmt>>,
    env: &mut Env,
) -> Result<Outcome, Halt>
    requires calls { CallsRun (C.IsAlwaysCallable calls.now) (C.post calls.now) scope }
    requires on { FitsAlone (meaning on.now) (formals scope) }
    requires body { StmtFits body.now (formals scope) (is_held env.old.signals.items) }
    requires other { PerhapsFits other.now (formals scope) (is_held env.old.signals.items) }
    ensures { StepGives result scope.entry (counted_step (branch_step (meaning on.now) (step_of (doing body.now)) (step_or_idle (perhaps other.now)))) env.old env.new }
{
    count_in(env)?;
    if is_true_in(alloc, calls, scope, on, env)? {
        run(alloc, calls, scope, body, env)
    } else {
        run_perhaps(alloc, calls, scope, other, env)
    }
}

// Runs a `case`.
#[cycle(run)]
fn run_case<C: Fn(Call) -> Result<Called, Halt>>(
    alloc: Global,
    calls: &C,
    scope: Scope<'_>,
    kind: CaseKind,
    on: &Expr,
    items: &[CaseItem],
    other: &Option<Boxed<Stmt>>,
    env: &mut Env,
) -> Result<Outcome, Halt>
    requires calls { CallsRun (C.IsAlwaysCallable calls.now) (C.post calls.now) scope }
    requires on { CaseFits on.now items.now (formals scope) }
    requires items { AllItemsFit items.now (formals scope) (is_held env.old.signals.items) }
    requires other { PerhapsFits other.now (formals scope) (is_held env.old.signals.items) }
    ensures { StepGives result scope.entry (counted_step (select_step kind (meaning on.now) items.now (step_or_idle (perhaps other.now)))) env.old env.new }
{
    count_in(env)?;
    match chosen_item(alloc, calls, scope, kind, on, items, env)? {
        Some(k) => run(alloc, calls, scope, &items[k].body, env),
        None => run_perhaps(alloc, calls, scope, other, env),
    }
}

// Runs statements in a scope of these locals.
#[cycle(run)]
fn run_scope<C: Fn(Call) -> Result<Called, Halt>>(
    alloc: Global,
    calls: &C,
    scope: Scope<'_>,
    locals: &[Local],
    body: &[Stmt],
    env: &mut Env,
) -> Result<Outcome, Halt>
    requires calls { CallsRun (C.IsAlwaysCallable calls.now) (C.post calls.now) scope }
    requires fits { ScopeFits locals.now body.now (formals scope) (is_held env.old.signals.items) }
    ensures { StepGives result scope.entry (scope_step locals.now body.now) env.old env.new }
{
    start_all(alloc, calls, scope, locals, env)?;
    run_all(alloc, calls, scope, body, env)
}

// Runs statements in order, until one doesn't end normally.
#[cycle(run)]
fn run_all<C: Fn(Call) -> Result<Called, Halt>>(
    alloc: Global,
    calls: &C,
    scope: Scope<'_>,
    body: &[Stmt],
    env: &mut Env,
) -> Result<Outcome, Halt>
    requires calls { CallsRun (C.IsAlwaysCallable calls.now) (C.post calls.now) scope }
    requires fits { AllStmtsFit body.now (formals scope) (is_held env.old.signals.items) }
    ensures { StepGives result scope.entry (body_step body.now) env.old env.new }
{
    for s in body {
        let outcome = run(alloc, calls, scope, s, env)?;
        if !goes_on(outcome) {
            return Ok(outcome);
        }
    }
    Ok(Outcome::Normal)
}

// Runs a turn of a loop whose test was true: how the loop ends, if it ends there.
#[cycle(run)]
fn run_turn<C: Fn(Call) -> Result<Called, Halt>>(
    alloc: Global,
    calls: &C,
    scope: Scope<'_>,
    control: Control<'_>,
    body: &Stmt,
    env: &mut Env,
) -> Result<Option<Outcome>, Halt>
    requires calls { CallsRun (C.IsAlwaysCallable calls.now) (C.post calls.now) scope }
    requires control { ControlFits control (formals scope) }
    requires fits { StmtFits body.now (formals scope) (is_held env.old.signals.items) }
    ensures { TurnGives result scope.entry (step_of (doing body.now)) (variable_step control.entry control.entry.step.now) env.old env.new }
{
    match run(alloc, calls, scope, body, env)? {
        Outcome::Normal => {
            set_variable(alloc, calls, scope, control, control.step, env)?;
            Ok(None)
        }
        Outcome::Continue => {
            set_variable(alloc, calls, scope, control, control.step, env)?;
            Ok(None)
        }
        Outcome::Break => Ok(Some(Outcome::Normal)),
        Outcome::Return => Ok(Some(Outcome::Return)),
    }
}

// Runs a loop.
#[cycle(run)]
fn run_loop<C: Fn(Call) -> Result<Called, Halt>>(
    alloc: Global,
    calls: &C,
    scope: Scope<'_>,
    control: Control<'_>,
    body: &Stmt,
    env: &mut Env,
) -> Result<Outcome, Halt>
    requires calls { CallsRun (C.IsAlwaysCallable calls.now) (C.post calls.now) scope }
    requires control { ControlFits control (formals scope) }
    requires fits { StmtFits body.now (formals scope) (is_held env.old.signals.items) }
    ensures { StepGives result scope.entry (loop_step control.entry (step_of (doing body.now))) env.old env.new }
{
    set_variable(alloc, calls, scope, control, control.first, env)?;
    for _turn in 0..MOST_TURNS {
        if !is_true_in(alloc, calls, scope, control.test, env)? {
            return Ok(Outcome::Normal);
        }
        match run_turn(alloc, calls, scope, control, body, env)? {
            Some(outcome) => return Ok(outcome),
            None => {}
        }
    }
    if is_true_in(alloc, calls, scope, control.test, env)? {
        return Err(Halt::Turns);
    }
    Ok(Outcome::Normal)
}

// Runs statements in a scope of these locals that take nothing of the budget.
#[cycle(run)]
fn run_uncounted<C: Fn(Call) -> Result<Called, Halt>>(
    alloc: Global,
    calls: &C,
    scope: Scope<'_>,
    locals: &[Local],
    body: &[Stmt],
    env: &mut Env,
) -> Result<Outcome, Halt>
    requires calls { CallsRun (C.IsAlwaysCallable calls.now) (C.post calls.now) scope }
    requires fits { ScopeFits locals.now body.now (formals scope) (is_held env.old.signals.items) }
    ensures { StepGives result scope.entry (uncounted_step (scope_step locals.now body.now)) env.old env.new }
{
    let left = env.budget;
    env.budget = None;
    let outcome = run_scope(alloc, calls, scope, locals, body, env)?;
    env.budget = left;
    Ok(outcome)
}

// Runs what stands for a replaced call: what stands before its body takes nothing of the budget.
#[cycle(run)]
fn run_made<C: Fn(Call) -> Result<Called, Halt>>(
    alloc: Global,
    calls: &C,
    scope: Scope<'_>,
    locals: &[Local],
    before: &[Stmt],
    body: &Option<Boxed<Stmt>>,
    env: &mut Env,
) -> Result<Outcome, Halt>
    requires calls { CallsRun (C.IsAlwaysCallable calls.now) (C.post calls.now) scope }
    requires fits { ScopeFits locals.now before.now (formals scope) (is_held env.old.signals.items) }
    requires body { PerhapsFits body.now (formals scope) (is_held env.old.signals.items) }
    ensures { StepGives result scope.entry (step_of (made locals.now (map doing before.now) (perhaps body.now))) env.old env.new }
{
    match body {
        None => {
            count_in(env)?;
            run_uncounted(alloc, calls, scope, locals, before, env)
        }
        Some(s) => {
            let outcome = run_uncounted(alloc, calls, scope, locals, before, env)?;
            if !goes_on(outcome) {
                return Ok(outcome);
            }
            run(alloc, calls, scope, s.get(), env)
        }
    }
}
