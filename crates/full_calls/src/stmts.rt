//! Statements.

ghost use Rattle.eval_forms.specs.Callees.{formals_in};
ghost use Rattle.expr_flows.specs.Full.{all_full};
ghost use Rattle.stmt_flows.specs.Full.{stmt_full, stmts_full, items_full, item_full, perhaps_full, written_start, written_starts};
ghost use Rattle.full_calls.specs.Full.{FullIf};

use crate::exprs::{are_full, is_full};
use sv_source::Boxed;
use sv_types::{CaseItem, Function, Local, Stmt};

// Whether no call in what a local starts with passes more than there are formals.
#[tactic(auto, using(crate::proofs::Statements::starts))]
fn is_local_full(l: &Local, functions: &[Function]) -> bool
    ensures { FullIf result (all_full (formals_in functions.now) (written_start l.now)) }
{
    match &l.initial {
        None => true,
        Some(e) => is_full(e, functions),
    }
}

fn are_locals_full(ls: &[Local], functions: &[Function]) -> bool
    ensures { FullIf result (all_full (formals_in functions.now) (written_starts ls.now)) }
{
    for l in ls {
        if !is_local_full(l, functions) {
            return false;
        }
    }
    true
}

/// Whether no call in a statement passes more than there are formals.
#[cycle(statements)]
#[tactic(auto, using(crate::proofs::Statements::statements))]
pub fn is_stmt_full(s: &Stmt, functions: &[Function]) -> bool
    ensures { FullIf result (stmt_full (formals_in functions.now) s.now) }
{
    match s {
        Stmt::Block { locals, body } => {
            are_locals_full(locals.as_slice(), functions)
                && are_stmts_full(body.as_slice(), functions)
        }
        Stmt::If { on, body, other } => {
            is_full(on, functions)
                && is_stmt_full(body.get(), functions)
                && is_perhaps_full(other, functions)
        }
        Stmt::Case {
            on,
            items,
            other,
            ..
        } => {
            is_full(on, functions)
                && are_items_full(items.as_slice(), functions)
                && is_perhaps_full(other, functions)
        }
        Stmt::Loop {
            first,
            test,
            step,
            body,
            ..
        } => {
            is_full(first, functions)
                && is_full(test, functions)
                && is_full(step, functions)
                && is_stmt_full(body.get(), functions)
        }
        Stmt::Assign { to, value, .. } => {
            is_full(value, functions) && are_full(to.as_slice(), functions)
        }
        Stmt::Call { actuals, .. } => are_full(actuals.as_slice(), functions),
        Stmt::Made {
            locals,
            before,
            body,
        } => {
            are_locals_full(locals.as_slice(), functions)
                && are_stmts_full(before.as_slice(), functions)
                && is_perhaps_full(body, functions)
        }
        Stmt::Break => true,
        Stmt::Continue => true,
        Stmt::Return => true,
    }
}

#[cycle(statements)]
fn are_stmts_full(ss: &[Stmt], functions: &[Function]) -> bool
    ensures { FullIf result (stmts_full (formals_in functions.now) ss.now) }
{
    for s in ss {
        if !is_stmt_full(s, functions) {
            return false;
        }
    }
    true
}

#[cycle(statements)]
fn is_perhaps_full(s: &Option<Boxed<Stmt>>, functions: &[Function]) -> bool
    ensures { FullIf result (perhaps_full (formals_in functions.now) s.now) }
{
    match s {
        None => true,
        Some(s) => is_stmt_full(s.get(), functions),
    }
}

#[cycle(statements)]
#[tactic(auto, using(crate::proofs::Statements::items))]
fn is_item_full(item: &CaseItem, functions: &[Function]) -> bool
    ensures { FullIf result (item_full (formals_in functions.now) item.now) }
{
    are_full(item.values.as_slice(), functions) && is_stmt_full(&item.body, functions)
}

#[cycle(statements)]
fn are_items_full(items: &[CaseItem], functions: &[Function]) -> bool
    ensures { FullIf result (items_full (formals_in functions.now) items.now) }
{
    for item in items {
        if !is_item_full(item, functions) {
            return false;
        }
    }
    true
}
