//! Unrolled lists, statement by statement.

ghost use Rattle.std.specs.Prelude.{◌≡◌, ◌∷◌, [], None, map, true, IfOk};
ghost use Rattle.sv_types.specs.declared.design.Design.{Design};
ghost use Rattle.sv_types.specs.Functions.{parameter};
ghost use Rattle.sv_types.specs.Expressions.{meaning};
ghost use Rattle.eval_parts.specs.Limits.{AllFit, FitsAlone};
ghost use Rattle.eval_forms.specs.Callees.{formals_in};
ghost use Rattle.eval_runs.specs.Functions.{AllCanRun};
ghost use Rattle.eval_stmts.specs.Limits.{StmtFits, AllStmtsFit, ScopeFits, LocalFits, AllLocalsFit, PerhapsFits, AllItemsFit};
ghost use Rattle.eval_stmts.specs.Targets.{ActualsFit};
ghost use Rattle.expr_flows.specs.Full.{is_full, all_full};
ghost use Rattle.expr_flows.specs.Known.{sight};
ghost use Rattle.stmt_flows.specs.Branches.{ItemsFitAlone};
ghost use Rattle.stmt_flows.specs.Full.{stmt_full, stmts_full, items_full, perhaps_full, written_start, written_starts};
ghost use Rattle.stmt_flows.specs.Turns.{IsInside, LoopFits, variable_of};
ghost use Rattle.sv_types.specs.Layouts.{layout};
ghost use Rattle.sv_types.specs.Operators.{assigned_to};
ghost use Rattle.design_breaks.specs.Indices.{unheld};
ghost use Rattle.design_breaks.specs.Unrolling as U;
ghost use Rattle.design_breaks.specs.Actions.{passed_to};
ghost use Rattle.design_breaks.specs.Breaks as B;
ghost use Rattle.loop_laws.specs.Walks.{see, walk, walk_all, walk_before, those, bodies, values, unrolls_of};
ghost use Rattle.loop_rules.specs.Counted.{control_at};
ghost use Rattle.loop_rules.specs.Walks.{LoopIs, OpenIs, EnteredIs, walk_made};

use crate::counts::{found, is_past, one_more, refilled, with_left};
use crate::{advance, enter, goes_on, is_counted, lasting};
use b4_core::Vec4;
use bound_values::{Bound, Test, assigned, look_at};
use design_breaks::Unrolled;
use eval_forms::formals_of;
use eval_stmts::Control;
use expr_flows::Known;
use part_flows::copied;
use std::alloc::{AllocError, Global};
use sv_source::Boxed;
use sv_types::{CaseItem, Expr, Formal, Function, Local, Stmt};

/// How far the loops of a process or of the body of a function can be unrolled (E608 and E703), where these functions can be
/// called.
pub fn unrolled(alloc: Global, functions: &[Function], s: &Stmt) -> Result<Unrolled, AllocError>
    requires functions { AllCanRun functions.now }
    requires fits { StmtFits s.now (formals_in functions.now) (λ n. true) }
    requires full { stmt_full (formals_in functions.now) s.now ≡ true }
    ensures { IfOk result (λ r. (d : Design) → d.functions ≡ functions.now → r ≡ B.unrolled d s.now) }
{
    let known = Known {
        functions,
        locals: &[],
        variables: &[],
    };
    let so_far = Unrolled {
        left: Some(1048576),
        endless: None,
    };
    unroll(alloc, known, s, so_far)
}

// An expression is valued.
fn see_one(
    alloc: Global,
    known: Known<'_>,
    e: &Expr,
    so_far: Unrolled,
) -> Result<Unrolled, AllocError>
    requires functions { AllCanRun known.functions.now }
    requires fits { FitsAlone (meaning e.now) (formals_in known.functions.now) }
    requires full { is_full (formals_in known.functions.now) e.now ≡ true }
    ensures { IfOk result (λ r. r ≡ see (e.now ∷ []) (sight known.entry) so_far) }
{
    match so_far.left {
        None => Ok(so_far),
        Some(_) => {
            let seen = look_at(alloc, known, e)?;
            Ok(found(seen.long, so_far))
        }
    }
}

// Expressions are valued.
fn see_all(
    alloc: Global,
    known: Known<'_>,
    es: &[Expr],
    so_far: Unrolled,
) -> Result<Unrolled, AllocError>
    requires functions { AllCanRun known.functions.now }
    requires fits { AllFit es.now (formals_in known.functions.now) }
    requires full { all_full (formals_in known.functions.now) es.now ≡ true }
    ensures { IfOk result (λ r. r ≡ see es.now (sight known.entry) so_far) }
{
    let mut now = so_far;
    for e in es {
        now = see_one(alloc, known, e, now)?;
    }
    Ok(now)
}

// What a local starts with is valued, where that is written.
fn see_start(
    alloc: Global,
    known: Known<'_>,
    l: &Local,
    so_far: Unrolled,
) -> Result<Unrolled, AllocError>
    requires functions { AllCanRun known.functions.now }
    requires fits { LocalFits l.now (formals_in known.functions.now) }
    requires full { all_full (formals_in known.functions.now) (written_start l.now) ≡ true }
    ensures { IfOk result (λ r. r ≡ see (U.start_of l.now) (sight known.entry) so_far) }
{
    match &l.initial {
        None => Ok(so_far),
        Some(e) => see_one(alloc, known, e, so_far),
    }
}

// What locals start with is valued.
fn see_starts(
    alloc: Global,
    known: Known<'_>,
    locals: &[Local],
    so_far: Unrolled,
) -> Result<Unrolled, AllocError>
    requires functions { AllCanRun known.functions.now }
    requires fits { AllLocalsFit locals.now (formals_in known.functions.now) }
    requires full { all_full (formals_in known.functions.now) (written_starts locals.now) ≡ true }
    ensures { IfOk result (λ r. r ≡ see (U.starts_of locals.now) (sight known.entry) so_far) }
{
    let mut now = so_far;
    for l in locals {
        now = see_start(alloc, known, l, now)?;
    }
    Ok(now)
}

// The values of all items of a `case` are valued.
fn see_items(
    alloc: Global,
    known: Known<'_>,
    items: &[CaseItem],
    so_far: Unrolled,
) -> Result<Unrolled, AllocError>
    requires functions { AllCanRun known.functions.now }
    requires fits { ItemsFitAlone items.now (formals_in known.functions.now) }
    requires full { all_full (formals_in known.functions.now) (values items.now) ≡ true }
    ensures { IfOk result (λ r. r ≡ see (values items.now) (sight known.entry) so_far) }
{
    let mut now = so_far;
    for item in items {
        now = see_all(alloc, known, item.values.as_slice(), now)?;
    }
    Ok(now)
}

// What is passed to formals is valued.
fn see_passed(
    alloc: Global,
    known: Known<'_>,
    formals: &[Formal],
    actuals: &[Expr],
    so_far: Unrolled,
) -> Result<Unrolled, AllocError>
    requires functions { AllCanRun known.functions.now }
    requires fits { ActualsFit (map parameter formals.now) actuals.now (formals_in known.functions.now) }
    requires full { all_full (formals_in known.functions.now) actuals.now ≡ true }
    ensures { IfOk result (λ r. r ≡ see (passed_to (map parameter formals.now) actuals.now) (sight known.entry) so_far) }
{
    let count = formals.len().min(actuals.len());
    see_all(alloc, known, &actuals[..count], so_far)
}

// A statement.
#[cycle(unroll)]
fn unroll(
    alloc: Global,
    known: Known<'_>,
    s: &Stmt,
    so_far: Unrolled,
) -> Result<Unrolled, AllocError>
    requires functions { AllCanRun known.functions.now }
    requires fits { StmtFits s.now (formals_in known.functions.now) (λ n. true) }
    requires full { stmt_full (formals_in known.functions.now) s.now ≡ true }
    ensures { IfOk result (λ r. r ≡ walk (formals_in known.entry.functions.now) s.now (sight known.entry) so_far) }
{
    match s {
        Stmt::Block { locals, body } => {
            let locals = locals.as_slice();
            let body = body.as_slice();
            let seen = see_starts(alloc, known, locals, one_more(so_far))?;
            unroll_all(alloc, known, body, seen)
        }
        Stmt::If { on, body, other } => {
            let seen = see_one(alloc, known, on, one_more(so_far))?;
            let first = unroll(alloc, known, body.get(), seen)?;
            unroll_other(alloc, known, other, first)
        }
        Stmt::Case {
            on,
            items,
            other,
            ..
        } => {
            let items = items.as_slice();
            let seen = see_one(alloc, known, on, one_more(so_far))?;
            let all = see_items(alloc, known, items, seen)?;
            let first = unroll_items(alloc, known, items, all)?;
            unroll_other(alloc, known, other, first)
        }
        Stmt::Loop {
            local,
            first,
            test,
            step,
            body,
            spot,
        } => {
            let control = Control {
                local: *local,
                first,
                test,
                step,
            };
            unroll_loop(alloc, known, control, spot.at, body.get(), so_far)
        }
        Stmt::Assign { to, value, .. } => {
            let to = to.as_slice();
            let seen = see_all(alloc, known, to, one_more(so_far))?;
            see_one(alloc, known, value, seen)
        }
        Stmt::Call {
            function,
            actuals,
            ..
        } => {
            let actuals = actuals.as_slice();
            let formals = formals_of(known.functions, *function);
            see_passed(alloc, known, formals, actuals, one_more(so_far))
        }
        Stmt::Made {
            locals,
            before,
            body,
        } => {
            let locals = locals.as_slice();
            let before = before.as_slice();
            unroll_made(alloc, known, locals, before, body, so_far)
        }
        Stmt::Break => Ok(one_more(so_far)),
        Stmt::Continue => Ok(one_more(so_far)),
        Stmt::Return => Ok(one_more(so_far)),
    }
}

// Statements in order.
#[cycle(unroll)]
fn unroll_all(
    alloc: Global,
    known: Known<'_>,
    ss: &[Stmt],
    so_far: Unrolled,
) -> Result<Unrolled, AllocError>
    requires functions { AllCanRun known.functions.now }
    requires fits { AllStmtsFit ss.now (formals_in known.functions.now) (λ n. true) }
    requires full { stmts_full (formals_in known.functions.now) ss.now ≡ true }
    ensures { IfOk result (λ r. r ≡ walk_all (formals_in known.entry.functions.now) ss.now (sight known.entry) so_far) }
{
    let mut now = so_far;
    for s in ss {
        now = unroll(alloc, known, s, now)?;
    }
    Ok(now)
}

// The statements of the items of a `case`.
#[cycle(unroll)]
fn unroll_items(
    alloc: Global,
    known: Known<'_>,
    items: &[CaseItem],
    so_far: Unrolled,
) -> Result<Unrolled, AllocError>
    requires functions { AllCanRun known.functions.now }
    requires fits { AllItemsFit items.now (formals_in known.functions.now) (λ n. true) }
    requires full { items_full (formals_in known.functions.now) items.now ≡ true }
    ensures { IfOk result (λ r. r ≡ walk_all (formals_in known.entry.functions.now) (bodies items.now) (sight known.entry) so_far) }
{
    let mut now = so_far;
    for item in items {
        now = unroll(alloc, known, &item.body, now)?;
    }
    Ok(now)
}

// A statement that may be left out.
#[cycle(unroll)]
fn unroll_other(
    alloc: Global,
    known: Known<'_>,
    s: &Option<Boxed<Stmt>>,
    so_far: Unrolled,
) -> Result<Unrolled, AllocError>
    requires functions { AllCanRun known.functions.now }
    requires fits { PerhapsFits s.now (formals_in known.functions.now) (λ n. true) }
    requires full { perhaps_full (formals_in known.functions.now) s.now ≡ true }
    ensures { IfOk result (λ r. r ≡ walk_all (formals_in known.entry.functions.now) (those s.now) (sight known.entry) so_far) }
{
    match s {
        None => Ok(so_far),
        Some(s) => unroll(alloc, known, s.get(), so_far),
    }
}

// What stands for a replaced call: its body, or one statement.
#[cycle(unroll)]
fn unroll_made(
    alloc: Global,
    known: Known<'_>,
    locals: &[Local],
    before: &[Stmt],
    body: &Option<Boxed<Stmt>>,
    so_far: Unrolled,
) -> Result<Unrolled, AllocError>
    requires functions { AllCanRun known.functions.now }
    requires fits { ScopeFits locals.now before.now (formals_in known.functions.now) (λ n. true) }
    requires locals_full { all_full (formals_in known.functions.now) (written_starts locals.now) ≡ true }
    requires before_full { stmts_full (formals_in known.functions.now) before.now ≡ true }
    requires body { PerhapsFits body.now (formals_in known.functions.now) (λ n. true) }
    requires body_full { perhaps_full (formals_in known.functions.now) body.now ≡ true }
    ensures { IfOk result (λ r. r ≡ walk_made (formals_in known.entry.functions.now) locals.now before.now body.now (sight known.entry) so_far) }
{
    match body {
        None => unroll_before(alloc, known, locals, before, one_more(so_far)),
        Some(s) => {
            let front = unroll_before(alloc, known, locals, before, so_far)?;
            unroll(alloc, known, s.get(), front)
        }
    }
}

// What stands before the body of a replaced call, which doesn't count.
#[cycle(unroll)]
fn unroll_before(
    alloc: Global,
    known: Known<'_>,
    locals: &[Local],
    before: &[Stmt],
    so_far: Unrolled,
) -> Result<Unrolled, AllocError>
    requires functions { AllCanRun known.functions.now }
    requires fits { ScopeFits locals.now before.now (formals_in known.functions.now) (λ n. true) }
    requires locals_full { all_full (formals_in known.functions.now) (written_starts locals.now) ≡ true }
    requires before_full { stmts_full (formals_in known.functions.now) before.now ≡ true }
    ensures { IfOk result (λ r. r ≡ walk_before (formals_in known.entry.functions.now) locals.now before.now (sight known.entry) so_far) }
{
    match so_far.left {
        None => Ok(so_far),
        Some(_) => {
            let seen = see_starts(alloc, known, locals, refilled(so_far))?;
            let walked = unroll_all(alloc, known, before, seen)?;
            Ok(with_left(so_far.left, walked))
        }
    }
}

// A loop.
#[cycle(unroll)]
fn unroll_loop(
    alloc: Global,
    known: Known<'_>,
    control: Control<'_>,
    at: u32,
    body: &Stmt,
    so_far: Unrolled,
) -> Result<Unrolled, AllocError>
    requires functions { AllCanRun known.functions.now }
    requires fits { LoopFits control body.now (formals_in known.functions.now) }
    ensures { IfOk result (LoopIs known.entry control.entry at body.now so_far) }
{
    match so_far.left {
        None => Ok(so_far),
        Some(_) => unroll_open(alloc, known, control, at, body, so_far),
    }
}

// A loop where more statements may stand, unless it isn't counted or stands behind a token that was found.
#[cycle(unroll)]
fn unroll_open(
    alloc: Global,
    known: Known<'_>,
    control: Control<'_>,
    at: u32,
    body: &Stmt,
    so_far: Unrolled,
) -> Result<Unrolled, AllocError>
    requires functions { AllCanRun known.functions.now }
    requires fits { LoopFits control body.now (formals_in known.functions.now) }
    ensures { IfOk result (OpenIs known.entry control.entry at body.now so_far) }
{
    if is_past(so_far.endless, at) {
        return Ok(so_far);
    }
    let counted = is_counted(alloc, known, control, body)?;
    if !counted {
        return Ok(so_far);
    }
    match assigned(alloc, known, &control.first.of, control.first)? {
        Bound::Long(long) => Ok(found(Some(long), so_far)),
        Bound::Bits(first) => unroll_entered(alloc, known, control, at, body, &first, so_far),
    }
}

// The turns of a loop whose variable starts with these bits, if they end.
#[cycle(unroll)]
fn unroll_entered(
    alloc: Global,
    known: Known<'_>,
    control: Control<'_>,
    at: u32,
    body: &Stmt,
    first: &Vec4,
    so_far: Unrolled,
) -> Result<Unrolled, AllocError>
    requires functions { AllCanRun known.functions.now }
    requires fits { LoopFits control body.now (formals_in known.functions.now) }
    requires first { first.now ≡ assigned_to (layout control.first.now.of).two_state (meaning control.first.now) (unheld (sight known).around) }
    ensures { IfOk result (EnteredIs known.entry control.entry at body.now so_far) }
{
    let inside = enter(alloc, known, control, first)?;
    let here = Known {
        functions: known.functions,
        locals: inside.locals.as_slice(),
        variables: inside.variables.as_slice(),
    };
    match lasting(alloc, here, control, at)? {
        Some(long) => Ok(found(Some(long), so_far)),
        None => unroll_turns(alloc, here, control, at, body, so_far),
    }
}

// The turns of a loop that ends.
#[cycle(unroll)]
fn unroll_turns(
    alloc: Global,
    known: Known<'_>,
    control: Control<'_>,
    at: u32,
    body: &Stmt,
    so_far: Unrolled,
) -> Result<Unrolled, AllocError>
    requires functions { AllCanRun known.functions.now }
    requires fits { LoopFits control body.now (formals_in known.functions.now) }
    requires inside { IsInside (variable_of control) known.variables.now }
    requires ends { U.lasting 65536 (control_at at control) (sight known) ≡ None }
    ensures { IfOk result (λ r. r ≡ U.turns 65536 (control_at at control.entry) (unrolls_of (formals_in known.entry.functions.now) body.now) (sight known.entry) so_far) }
{
    let mut locals = copied(alloc, known.locals)?;
    let mut now = so_far;
    for _turn in 0u32..65536 {
        let here = Known {
            functions: known.functions,
            locals: locals.as_slice(),
            variables: known.variables,
        };
        if now.left.is_none() {
            return Ok(now);
        }
        match goes_on(alloc, known, control, locals.as_slice())? {
            Test::Long(_) => return Ok(now),
            Test::Stops => return Ok(now),
            Test::Goes => {}
        }
        now = unroll(alloc, here, body, now)?;
        let _short = advance(alloc, known, control, &mut locals)?;
    }
    Ok(now)
}
