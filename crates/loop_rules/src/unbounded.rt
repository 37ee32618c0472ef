//! The loops of a statement that aren't counted, each looked at once whatever turns are made.

ghost use Rattle.std.specs.Prelude.{◌≡◌, flat_map, true, IfOk};
ghost use Rattle.sv_types.specs.declared.design.Design.{Design};
ghost use Rattle.eval_forms.specs.Callees.{formals_in};
ghost use Rattle.eval_runs.specs.Functions.{AllCanRun};
ghost use Rattle.eval_stmts.specs.Limits.{StmtFits, AllStmtsFit, PerhapsFits, AllItemsFit};
ghost use Rattle.stmt_flows.specs.Full.{stmt_full, stmts_full, items_full, perhaps_full};
ghost use Rattle.stmt_flows.specs.Turns.{LoopFits};
ghost use Rattle.least_breaks.specs.Least.{IsLeastToken};
ghost use Rattle.design_breaks.specs.Actions as A;
ghost use Rattle.design_breaks.specs.Actions.{actions};
ghost use Rattle.design_breaks.specs.Breaks.{unbounded_of};
ghost use Rattle.loop_laws.specs.Walks.{those, bodies};
ghost use Rattle.loop_rules.specs.Counted.{control_at, unbounded_in, unless_counted, LeastGives};

use crate::counted::{is_counted, variable_in};
use eval_stmts::Control;
use expr_flows::Known;
use least_breaks::with_token;
use part_flows::with_variable;
use std::alloc::{AllocError, Global};
use sv_source::Boxed;
use sv_types::{CaseItem, Function, Stmt};

/// The least `for` of the loops in a process or in the body of a function whose bounds read more than constants and the variables
/// of loops, or whose variable is written in them (E608), where these functions can be called.
pub fn least_unbounded(
    alloc: Global,
    functions: &[Function],
    s: &Stmt,
) -> Result<Option<u32>, AllocError>
    requires functions { AllCanRun functions.now }
    requires fits { StmtFits s.now (formals_in functions.now) (λ n. true) }
    requires full { stmt_full (formals_in functions.now) s.now ≡ true }
    ensures { IfOk result (λ r. (d : Design) → d.functions ≡ functions.now → IsLeastToken (unbounded_of d s.now) r) }
{
    let known = Known {
        functions,
        locals: &[],
        variables: &[],
    };
    least_of_stmt(alloc, known, s, None)
}

// The least of a token and those of a statement.
#[cycle(unbounded)]
fn least_of_stmt(
    alloc: Global,
    known: Known<'_>,
    s: &Stmt,
    least: Option<u32>,
) -> Result<Option<u32>, AllocError>
    requires functions { AllCanRun known.functions.now }
    requires fits { StmtFits s.now (formals_in known.functions.now) (λ n. true) }
    requires full { stmt_full (formals_in known.functions.now) s.now ≡ true }
    ensures { LeastGives result known.entry least (λ h. unbounded_in (formals_in known.entry.functions.now) h s.now) }
{
    match s {
        Stmt::Block { body, .. } => least_of_all(alloc, known, body.as_slice(), least),
        Stmt::If { body, other, .. } => {
            let so_far = least_of_stmt(alloc, known, body.get(), least)?;
            least_of_other(alloc, known, other, so_far)
        }
        Stmt::Case { items, other, .. } => {
            let so_far = least_of_items(alloc, known, items.as_slice(), least)?;
            least_of_other(alloc, known, other, so_far)
        }
        Stmt::Loop {
            local,
            first,
            test,
            step,
            body,
            spot,
        } => {
            let control = Control {
                local: *local,
                first,
                test,
                step,
            };
            least_of_loop(alloc, known, control, spot.at, body.get(), least)
        }
        Stmt::Assign { .. } => Ok(least),
        Stmt::Call { .. } => Ok(least),
        Stmt::Made { before, body, .. } => {
            let so_far = least_of_all(alloc, known, before.as_slice(), least)?;
            least_of_other(alloc, known, body, so_far)
        }
        Stmt::Break => Ok(least),
        Stmt::Continue => Ok(least),
        Stmt::Return => Ok(least),
    }
}

#[cycle(unbounded)]
fn least_of_all(
    alloc: Global,
    known: Known<'_>,
    ss: &[Stmt],
    least: Option<u32>,
) -> Result<Option<u32>, AllocError>
    requires functions { AllCanRun known.functions.now }
    requires fits { AllStmtsFit ss.now (formals_in known.functions.now) (λ n. true) }
    requires full { stmts_full (formals_in known.functions.now) ss.now ≡ true }
    ensures { LeastGives result known.entry least (λ h. flat_map (unbounded_in (formals_in known.entry.functions.now) h) ss.now) }
{
    let mut so_far = least;
    for s in ss {
        so_far = least_of_stmt(alloc, known, s, so_far)?;
    }
    Ok(so_far)
}

#[cycle(unbounded)]
fn least_of_items(
    alloc: Global,
    known: Known<'_>,
    items: &[CaseItem],
    least: Option<u32>,
) -> Result<Option<u32>, AllocError>
    requires functions { AllCanRun known.functions.now }
    requires fits { AllItemsFit items.now (formals_in known.functions.now) (λ n. true) }
    requires full { items_full (formals_in known.functions.now) items.now ≡ true }
    ensures { LeastGives result known.entry least (λ h. flat_map (unbounded_in (formals_in known.entry.functions.now) h) (bodies items.now)) }
{
    let mut so_far = least;
    for item in items {
        so_far = least_of_stmt(alloc, known, &item.body, so_far)?;
    }
    Ok(so_far)
}

#[cycle(unbounded)]
fn least_of_other(
    alloc: Global,
    known: Known<'_>,
    s: &Option<Boxed<Stmt>>,
    least: Option<u32>,
) -> Result<Option<u32>, AllocError>
    requires functions { AllCanRun known.functions.now }
    requires fits { PerhapsFits s.now (formals_in known.functions.now) (λ n. true) }
    requires full { perhaps_full (formals_in known.functions.now) s.now ≡ true }
    ensures { LeastGives result known.entry least (λ h. flat_map (unbounded_in (formals_in known.entry.functions.now) h) (those s.now)) }
{
    match s {
        None => Ok(least),
        Some(s) => least_of_stmt(alloc, known, s.get(), least),
    }
}

// A token unless a loop is counted.
fn unless(is_counted: bool, least: Option<u32>, at: u32) -> Option<u32>
    ensures { result ≡ unless_counted is_counted least at }
{
    if is_counted {
        least
    } else {
        with_token(least, at)
    }
}

// A loop, and those in it.
#[cycle(unbounded)]
fn least_of_loop(
    alloc: Global,
    known: Known<'_>,
    control: Control<'_>,
    at: u32,
    body: &Stmt,
    least: Option<u32>,
) -> Result<Option<u32>, AllocError>
    requires functions { AllCanRun known.functions.now }
    requires fits { LoopFits control body.now (formals_in known.functions.now) }
    ensures { LeastGives result known.entry least (λ h. A.unbounded_in (control_at at control.entry) (actions body.now) (formals_in known.entry.functions.now) h) }
{
    let bounded = is_counted(alloc, known, control, body)?;
    let variables = with_variable(alloc, variable_in(control), known.variables)?;
    let inside = Known {
        functions: known.functions,
        locals: known.locals,
        variables: variables.as_slice(),
    };
    least_of_stmt(alloc, inside, body, unless(bounded, least, at))
}
