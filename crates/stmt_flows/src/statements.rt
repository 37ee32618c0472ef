//! What is known of statements before they run (IEEE 1800-2017 clauses 9.3.1 and 12).

ghost use Rattle.std.specs.Prelude.{◌≡◌, ◌∷◌, ◌++◌, ◌^◌, ◌<◌, true, length, map};
ghost use Rattle.sv_types.specs.Expressions.{meaning};
ghost use Rattle.sv_types.specs.Flows as F;
ghost use Rattle.sv_types.specs.Statements.{doing, made};
ghost use Rattle.eval_forms.specs.Callees.{formals_in};
ghost use Rattle.eval_parts.specs.Limits.{FitsAlone};
ghost use Rattle.eval_runs.specs.Functions.{AllCanRun};
ghost use Rattle.eval_stmts.specs.Limits.{StmtFits, AllStmtsFit, ScopeFits, PerhapsFits, AllItemsFit, perhaps};
ghost use Rattle.expr_flows.specs.Full.{is_full, all_full};
ghost use Rattle.expr_flows.specs.Known.{sight, sight_in};
ghost use Rattle.stmt_flows.specs.Full.{stmt_full, perhaps_full, stmts_full, items_full, written_starts};
ghost use Rattle.stmt_flows.specs.Gives.{FoundGives, AnyGives, flows_of, perhaps_flow as spec_perhaps, item_flows};
ghost use Rattle.stmt_flows.specs.Long.{LongIn, LongInOne, SomeHoldLong, those, item_bodies};
ghost use Rattle.stmt_flows.specs.Turns.{LoopFits, IsInside, StopsHere, TurnsGive, LoopGives, loop_of, variable_of};
ghost use Rattle.stmt_flows.specs.Statements as spec;

use crate::branches::{branch_flow, selected_flow};
use crate::fails::StmtFail;
use crate::rows::{either, in_row};
use crate::scopes::{bare_made_flow, block_flow, made_flow};
use crate::turns::{Inside, Turned, after_body, all_turns, enter, whole_loop};
use b4_core::Vec4;
use eval_stmts::Control;
use expr_flows::Known;
use flow_sets::{Found, catching_continues, counted, idle, jumping};
use part_flows::{assign_flow, call_flow, tested};
use std::alloc::Global;
use sv_source::Boxed;
use sv_types::{CaseItem, Expr, Function, Local, Outcome, Stmt};

/// What is known of a process or of the body of a function before it runs, where these functions can be called. `TooLong` where
/// a constant index or bound takes too long, and `TooMany` where over 2^20 statements run, each counted by itself (E703).
pub fn body_flow(alloc: Global, functions: &[Function], s: &Stmt) -> Result<Found, StmtFail>
    requires functions { AllCanRun functions.now }
    requires fits { StmtFits s.now (formals_in functions.now) (λ n. true) }
    requires full { stmt_full (formals_in functions.now) s.now ≡ true }
    ensures { FoundGives result true (LongIn (spec.unseen_by functions.now) s.now) ((doing s.now).flow (spec.unseen_by functions.now)) }
{
    let known = Known {
        functions,
        locals: &[],
        variables: &[],
    };
    flow_of(alloc, known, s)
}

/// What is known of a statement before it runs. It fails as `body_flow` does.
pub fn flow_of(alloc: Global, known: Known<'_>, s: &Stmt) -> Result<Found, StmtFail>
    requires functions { AllCanRun known.functions.now }
    requires fits { StmtFits s.now (formals_in known.functions.now) (λ n. true) }
    requires full { stmt_full (formals_in known.functions.now) s.now ≡ true }
    ensures { FoundGives result true (LongIn (sight known.entry) s.now) ((doing s.now).flow (sight known.entry)) }
{
    stmt_flow(alloc, known, true, s)
}

// What is known of a statement, whose statements may be counted.
#[cycle(flow)]
fn stmt_flow(alloc: Global, known: Known<'_>, counting: bool, s: &Stmt) -> Result<Found, StmtFail>
    requires functions { AllCanRun known.functions.now }
    requires fits { StmtFits s.now (formals_in known.functions.now) (λ n. true) }
    requires full { stmt_full (formals_in known.functions.now) s.now ≡ true }
    ensures { FoundGives result counting (LongIn (sight known.entry) s.now) ((doing s.now).flow (sight known.entry)) }
{
    match s {
        Stmt::Block { locals, body } => {
            let locals = locals.as_slice();
            let body = body.as_slice();
            let found = all_flows(alloc, known, counting, body)?;
            block_flow(alloc, known, locals, found)
        }
        Stmt::If { on, body, other } => if_flow(alloc, known, counting, on, body.get(), other),
        Stmt::Case {
            on,
            items,
            other,
            ..
        } => {
            let items = items.as_slice();
            let branches = case_branches(alloc, known, counting, items, other)?;
            selected_flow(alloc, known, on, items, branches)
        }
        Stmt::Loop {
            local,
            first,
            test,
            step,
            body,
            ..
        } => {
            let control = Control {
                local: *local,
                first,
                test,
                step,
            };
            loop_flow(alloc, known, counting, control, body.get())
        }
        Stmt::Assign {
            to,
            value,
            later,
            ..
        } => {
            let to = to.as_slice();
            let assigned = assign_flow(alloc, known, to, value, *later)?;
            Ok(counted(assigned))
        }
        Stmt::Call {
            function,
            actuals,
            ..
        } => {
            let actuals = actuals.as_slice();
            let called = call_flow(alloc, known, *function, actuals)?;
            Ok(counted(called))
        }
        Stmt::Made {
            locals,
            before,
            body,
        } => made_body(
            alloc,
            known,
            counting,
            locals.as_slice(),
            before.as_slice(),
            body,
        ),
        Stmt::Break => Ok(counted(jumping(alloc, Outcome::Break))),
        Stmt::Continue => Ok(counted(jumping(alloc, Outcome::Continue))),
        Stmt::Return => Ok(counted(jumping(alloc, Outcome::Return))),
    }
}

// A statement that may be left out.
#[cycle(flow)]
fn perhaps_flow(
    alloc: Global,
    known: Known<'_>,
    counting: bool,
    s: &Option<Boxed<Stmt>>,
) -> Result<Found, StmtFail>
    requires functions { AllCanRun known.functions.now }
    requires fits { PerhapsFits s.now (formals_in known.functions.now) (λ n. true) }
    requires full { perhaps_full (formals_in known.functions.now) s.now ≡ true }
    ensures { FoundGives result counting (LongInOne (sight known.entry) (those s.now)) (spec_perhaps s.now (sight known.entry)) }
{
    match s {
        None => Ok(idle(alloc, true)),
        Some(s) => stmt_flow(alloc, known, counting, s.get()),
    }
}

// An `if`.
#[cycle(flow)]
fn if_flow(
    alloc: Global,
    known: Known<'_>,
    counting: bool,
    on: &Expr,
    body: &Stmt,
    other: &Option<Boxed<Stmt>>,
) -> Result<Found, StmtFail>
    requires functions { AllCanRun known.functions.now }
    requires on { FitsAlone (meaning on.now) (formals_in known.functions.now) }
    requires on_full { is_full (formals_in known.functions.now) on.now ≡ true }
    requires body { StmtFits body.now (formals_in known.functions.now) (λ n. true) }
    requires body_full { stmt_full (formals_in known.functions.now) body.now ≡ true }
    requires other { PerhapsFits other.now (formals_in known.functions.now) (λ n. true) }
    requires other_full { perhaps_full (formals_in known.functions.now) other.now ≡ true }
    ensures { FoundGives result counting (spec.LongInIf (sight known.entry) on.now body.now other.now) (spec.if_flow on.now body.now other.now (sight known.entry)) }
{
    let body = stmt_flow(alloc, known, counting, body)?;
    let other = perhaps_flow(alloc, known, counting, other)?;
    branch_flow(alloc, known, counting, on, body, other)
}

// Statements in order, by halves.
#[cycle(flow)]
fn all_flows(
    alloc: Global,
    known: Known<'_>,
    counting: bool,
    body: &[Stmt],
) -> Result<Found, StmtFail>
    requires functions { AllCanRun known.functions.now }
    requires fits { AllStmtsFit body.now (formals_in known.functions.now) (λ n. true) }
    requires full { stmts_full (formals_in known.functions.now) body.now ≡ true }
    ensures { FoundGives result counting (LongInOne (sight known.entry) body.now) (F.in_turn (flows_of body.now) (sight known.entry)) }
{
    if body.len() == 0 {
        return Ok(idle(alloc, true));
    }
    if body.len() == 1 {
        return stmt_flow(alloc, known, counting, &body[0]);
    }
    let (front, back) = body.split_at(body.len() / 2);
    let first = all_flows(alloc, known, counting, front)?;
    let then = all_flows(alloc, known, counting, back)?;
    in_row(alloc, counting, first, then)
}

// The items of a `case`, by halves.
#[cycle(flow)]
fn items_flow(
    alloc: Global,
    known: Known<'_>,
    counting: bool,
    items: &[CaseItem],
) -> Result<Found, StmtFail>
    requires functions { AllCanRun known.functions.now }
    requires fits { AllItemsFit items.now (formals_in known.functions.now) (λ n. true) }
    requires full { items_full (formals_in known.functions.now) items.now ≡ true }
    requires some { 0 < length items.now }
    ensures { AnyGives result counting (LongInOne (sight known.entry) (item_bodies items.now)) (item_flows items.now) (sight known.entry) }
{
    if items.len() == 1 {
        return stmt_flow(alloc, known, counting, &items[0].body);
    }
    let (front, back) = items.split_at(items.len() / 2);
    let first = items_flow(alloc, known, counting, front)?;
    let then = items_flow(alloc, known, counting, back)?;
    either(alloc, counting, first, then)
}

// The branches of a `case`.
#[cycle(flow)]
fn case_branches(
    alloc: Global,
    known: Known<'_>,
    counting: bool,
    items: &[CaseItem],
    other: &Option<Boxed<Stmt>>,
) -> Result<Found, StmtFail>
    requires functions { AllCanRun known.functions.now }
    requires items { AllItemsFit items.now (formals_in known.functions.now) (λ n. true) }
    requires items_full { items_full (formals_in known.functions.now) items.now ≡ true }
    requires other { PerhapsFits other.now (formals_in known.functions.now) (λ n. true) }
    requires other_full { perhaps_full (formals_in known.functions.now) other.now ≡ true }
    ensures { FoundGives result counting (LongInOne (sight known.entry) (item_bodies items.now ++ those other.now)) (F.any_of (item_flows items.now) (spec_perhaps other.now (sight known.entry)) (sight known.entry)) }
{
    if items.len() == 0 {
        return perhaps_flow(alloc, known, counting, other);
    }
    let first = items_flow(alloc, known, counting, items)?;
    let other = perhaps_flow(alloc, known, counting, other)?;
    either(alloc, counting, first, other)
}

// What stands for a replaced call: what stands before its body isn't counted.
#[cycle(flow)]
fn made_body(
    alloc: Global,
    known: Known<'_>,
    counting: bool,
    locals: &[Local],
    before: &[Stmt],
    body: &Option<Boxed<Stmt>>,
) -> Result<Found, StmtFail>
    requires functions { AllCanRun known.functions.now }
    requires fits { ScopeFits locals.now before.now (formals_in known.functions.now) (λ n. true) }
    requires locals_full { all_full (formals_in known.functions.now) (written_starts locals.now) ≡ true }
    requires before_full { stmts_full (formals_in known.functions.now) before.now ≡ true }
    requires body { PerhapsFits body.now (formals_in known.functions.now) (λ n. true) }
    requires body_full { perhaps_full (formals_in known.functions.now) body.now ≡ true }
    ensures { FoundGives result counting (spec.LongInMade (sight known.entry) locals.now before.now body.now) ((made locals.now (map doing before.now) (perhaps body.now)).flow (sight known.entry)) }
{
    let front = all_flows(alloc, known, false, before)?;
    match body {
        None => bare_made_flow(alloc, known, locals, front),
        Some(s) => {
            let found = stmt_flow(alloc, known, counting, s.get())?;
            made_flow(alloc, known, locals, front, found)
        }
    }
}

// A turn of a loop.
#[cycle(flow)]
fn one_turn(
    alloc: Global,
    known: Known<'_>,
    counting: bool,
    control: Control<'_>,
    body: &Stmt,
    locals: &mut Vec<Option<Vec4>>,
) -> Result<Turned, StmtFail>
    requires functions { AllCanRun known.functions.now }
    requires fits { LoopFits control body.now (formals_in known.functions.now) }
    requires inside { IsInside (variable_of control) known.variables.now }
    ensures { TurnsGive result counting (loop_of control.entry body.now) 1 (sight_in known.entry.functions.now locals.old.items known.entry.variables.now) (sight_in known.entry.functions.now locals.new.items known.entry.variables.now) }
{
    let here = Known {
        functions: known.functions,
        locals: locals.as_slice(),
        variables: known.variables,
    };
    match tested(alloc, here, control.test)? {
        None => Ok(Turned {
            found: idle(alloc, false),
            ended: true,
        }),
        Some(goes_on) => tested_turn(alloc, known, counting, control, body, !goes_on, locals),
    }
}

// A turn of a loop, unless the loop stops by its test, which is known.
#[cycle(flow)]
fn tested_turn(
    alloc: Global,
    known: Known<'_>,
    counting: bool,
    control: Control<'_>,
    body: &Stmt,
    stops: bool,
    locals: &mut Vec<Option<Vec4>>,
) -> Result<Turned, StmtFail>
    requires functions { AllCanRun known.functions.now }
    requires fits { LoopFits control body.now (formals_in known.functions.now) }
    requires inside { IsInside (variable_of control) known.variables.now }
    requires test { StopsHere control.test.now stops (sight_in known.functions.now locals.old.items known.variables.now) }
    ensures { TurnsGive result counting (loop_of control.entry body.now) 1 (sight_in known.entry.functions.now locals.old.items known.entry.variables.now) (sight_in known.entry.functions.now locals.new.items known.entry.variables.now) }
{
    if stops {
        return Ok(Turned {
            found: idle(alloc, true),
            ended: true,
        });
    }
    let here = Known {
        functions: known.functions,
        locals: locals.as_slice(),
        variables: known.variables,
    };
    let found = stmt_flow(alloc, here, counting, body)?;
    let turn = catching_continues(alloc, found)?;
    after_body(alloc, known, control, turn, locals)
}

// Two to the power `doublings` turns of a loop, by halves.
#[cycle(flow)]
fn some_turns(
    alloc: Global,
    known: Known<'_>,
    counting: bool,
    control: Control<'_>,
    body: &Stmt,
    doublings: u32,
    locals: &mut Vec<Option<Vec4>>,
) -> Result<Turned, StmtFail>
    requires functions { AllCanRun known.functions.now }
    requires fits { LoopFits control body.now (formals_in known.functions.now) }
    requires inside { IsInside (variable_of control) known.variables.now }
    ensures { TurnsGive result counting (loop_of control.entry body.now) (2 ^ doublings) (sight_in known.entry.functions.now locals.old.items known.entry.variables.now) (sight_in known.entry.functions.now locals.new.items known.entry.variables.now) }
{
    if doublings == 0 {
        return one_turn(alloc, known, counting, control, body, locals);
    }
    let first = some_turns(alloc, known, counting, control, body, doublings - 1, locals)?;
    if first.ended {
        return Ok(first);
    }
    let then = some_turns(alloc, known, counting, control, body, doublings - 1, locals)?;
    let ended = then.ended;
    let found = in_row(alloc, counting, first.found, then.found)?;
    Ok(Turned { found, ended })
}

// The turns of a loop whose variable starts with a known value.
#[cycle(flow)]
fn entered_turns(
    alloc: Global,
    known: Known<'_>,
    counting: bool,
    control: Control<'_>,
    body: &Stmt,
    inside: Inside,
) -> Result<Found, StmtFail>
    requires functions { AllCanRun known.functions.now }
    requires fits { LoopFits control body.now (formals_in known.functions.now) }
    requires inside { IsInside (variable_of control) inside.variables.items }
    ensures { LoopGives result counting (loop_of control.entry body.now) (sight_in known.entry.functions.now inside.locals.items inside.variables.items) }
{
    let Inside {
        variables,
        mut locals,
    } = inside;
    let around = variables.as_slice();
    let here = Known {
        functions: known.functions,
        locals: &[],
        variables: around,
    };
    let turned = some_turns(alloc, here, counting, control, body, 16, &mut locals)?;
    let now = locals.as_slice();
    let last = Known {
        functions: known.functions,
        locals: now,
        variables: around,
    };
    all_turns(alloc, last, control, turned)
}

// A loop.
#[cycle(flow)]
fn loop_flow(
    alloc: Global,
    known: Known<'_>,
    counting: bool,
    control: Control<'_>,
    body: &Stmt,
) -> Result<Found, StmtFail>
    requires functions { AllCanRun known.functions.now }
    requires fits { LoopFits control body.now (formals_in known.functions.now) }
    ensures { FoundGives result counting (spec.LongInLoop (sight known.entry) (loop_of control.entry body.now)) (spec.loop_flow (loop_of control.entry body.now) (sight known.entry)) }
{
    match enter(alloc, known, control)? {
        None => whole_loop(alloc, known, control, idle(alloc, false)),
        Some(inside) => {
            let turns = entered_turns(alloc, known, counting, control, body, inside)?;
            whole_loop(alloc, known, control, turns)
        }
    }
}
