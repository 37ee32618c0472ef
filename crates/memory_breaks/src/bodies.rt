//! The signals that statements name.

ghost use Rattle.std.specs.Prelude.{◌≡◌, map};
ghost use Rattle.memory_breaks.specs.Bodies as spec;

use crate::Marks;
use crate::names::{Sense, mark_all_names, mark_first_names, mark_names};
use sv_source::Boxed;
use sv_types::{CaseItem, Expr, Function, Local, Stmt};

fn mark_local(local: &Local, marks: &mut Marks)
    ensures { marks.new ≡ spec.initial_walk local.now marks.old }
{
    match &local.initial {
        None => (),
        Some(e) => mark_names(e, Sense::Named, marks),
    }
}

fn mark_locals(locals: &[Local], marks: &mut Marks)
    ensures { marks.new ≡ spec.one_by_one (map spec.initial_walk locals.now) marks.old }
{
    for local in locals {
        mark_local(local, marks);
    }
}

// How many formals the function at a place has.
fn formal_count(functions: &[Function], function: u32) -> u128
    ensures { result ≡ spec.formal_count functions.now function }
{
    let place = function as usize;
    if place < functions.len() {
        functions[place].formals.len() as u128
    } else {
        0
    }
}

// What is passed to formals.
fn mark_actuals(functions: &[Function], function: u32, actuals: &[Expr], marks: &mut Marks)
    ensures { marks.new ≡ spec.called functions.now function actuals.now marks.old }
{
    mark_first_names(actuals, formal_count(functions, function), marks);
}

// The values and bodies of the items of a `case`.
#[cycle(statements)]
fn mark_items(functions: &[Function], items: &[CaseItem], marks: &mut Marks)
    ensures { marks.new ≡ spec.one_by_one (map (spec.item_walk functions.now) items.now) marks.old }
{
    for item in items {
        mark_all_names(item.values.as_slice(), Sense::Named, marks);
        mark_stmt(functions, &item.body, marks);
    }
}

#[cycle(statements)]
fn mark_body(functions: &[Function], body: &[Stmt], marks: &mut Marks)
    ensures { marks.new ≡ spec.one_by_one (map (spec.stmt_walk functions.now) body.now) marks.old }
{
    for stmt in body {
        mark_stmt(functions, stmt, marks);
    }
}

// What a statement that may be left out names.
#[cycle(statements)]
fn mark_other(functions: &[Function], other: &Option<Boxed<Stmt>>, marks: &mut Marks)
    ensures { marks.new ≡ spec.if_written (spec.perhaps functions.now other.now) marks.old }
{
    match other {
        None => (),
        Some(s) => mark_stmt(functions, s.get(), marks),
    }
}

/// Marks the signals that a statement names, as targets or otherwise, where these functions can be called.
#[cycle(statements)]
pub(crate) fn mark_stmt(functions: &[Function], stmt: &Stmt, marks: &mut Marks)
    ensures { marks.new ≡ spec.stmt_walk functions.now stmt.now marks.old }
{
    match stmt {
        Stmt::Block { locals, body } => {
            mark_locals(locals.as_slice(), marks);
            mark_body(functions, body.as_slice(), marks);
        }
        Stmt::If { on, body, other } => {
            mark_names(on, Sense::Named, marks);
            mark_stmt(functions, body.get(), marks);
            mark_other(functions, other, marks);
        }
        Stmt::Case {
            on,
            items,
            other,
            ..
        } => {
            mark_names(on, Sense::Named, marks);
            mark_items(functions, items.as_slice(), marks);
            mark_other(functions, other, marks);
        }
        Stmt::Loop {
            first,
            test,
            step,
            body,
            ..
        } => {
            mark_names(first, Sense::Named, marks);
            mark_names(test, Sense::Named, marks);
            mark_names(step, Sense::Named, marks);
            mark_stmt(functions, body.get(), marks);
        }
        Stmt::Assign { to, value, .. } => {
            mark_all_names(to.as_slice(), Sense::Named, marks);
            mark_names(value, Sense::Named, marks);
        }
        Stmt::Call {
            function,
            actuals,
            ..
        } => mark_actuals(functions, *function, actuals.as_slice(), marks),
        Stmt::Made {
            locals,
            before,
            body,
        } => {
            mark_locals(locals.as_slice(), marks);
            mark_body(functions, before.as_slice(), marks);
            mark_other(functions, body, marks);
        }
        Stmt::Break => (),
        Stmt::Continue => (),
        Stmt::Return => (),
    }
}
