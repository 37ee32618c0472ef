//! The tokens of statements.

ghost use Rattle.std.specs.Prelude.{◌≡◌, map, option_copied};
ghost use Rattle.break_spots.specs.Walk as spec;

use crate::exprs::{in_expr, in_exprs, look};
use sv_source::Spot;
use sv_types::{CaseItem, Local, Stmt};

fn in_local<'a>(local: &'a Local, at: u32, found: Option<&'a Spot>) -> Option<&'a Spot>
    ensures { option_copied result ≡ spec.initial_walk at local.now (option_copied found.entry) }
{
    match &local.initial {
        None => found,
        Some(e) => in_expr(e, at, found),
    }
}

fn in_locals<'a>(locals: &'a [Local], at: u32, found: Option<&'a Spot>) -> Option<&'a Spot>
    ensures { option_copied result ≡ spec.in_turn (map (spec.initial_walk at) locals.now) (option_copied found.entry) }
{
    let mut first = found;
    for local in locals {
        first = in_local(local, at, first);
    }
    first
}

#[cycle(statements)]
fn in_item<'a>(item: &'a CaseItem, at: u32, found: Option<&'a Spot>) -> Option<&'a Spot>
    ensures { option_copied result ≡ spec.item_walk at item.now (option_copied found.entry) }
{
    let first = in_exprs(item.values.as_slice(), at, found);
    in_stmt(&item.body, at, first)
}

#[cycle(statements)]
fn in_items<'a>(items: &'a [CaseItem], at: u32, found: Option<&'a Spot>) -> Option<&'a Spot>
    ensures { option_copied result ≡ spec.in_turn (map (spec.item_walk at) items.now) (option_copied found.entry) }
{
    let mut first = found;
    for item in items {
        first = in_item(item, at, first);
    }
    first
}

#[cycle(statements)]
fn in_body<'a>(body: &'a [Stmt], at: u32, found: Option<&'a Spot>) -> Option<&'a Spot>
    ensures { option_copied result ≡ spec.in_turn (map (spec.stmt_walk at) body.now) (option_copied found.entry) }
{
    let mut first = found;
    for stmt in body {
        first = in_stmt(stmt, at, first);
    }
    first
}

/// The spot that was found before, or else the first one at the token in a statement.
#[cycle(statements)]
pub(crate) fn in_stmt<'a>(stmt: &'a Stmt, at: u32, found: Option<&'a Spot>) -> Option<&'a Spot>
    ensures { option_copied result ≡ spec.stmt_walk at stmt.now (option_copied found.entry) }
{
    match stmt {
        Stmt::Block { locals, body } => {
            let first = in_locals(locals.as_slice(), at, found);
            in_body(body.as_slice(), at, first)
        }
        Stmt::If { on, body, other } => {
            let first = in_stmt(body.get(), at, in_expr(on, at, found));
            match other {
                None => first,
                Some(s) => in_stmt(s.get(), at, first),
            }
        }
        Stmt::Case {
            on,
            items,
            other,
            ..
        } => {
            let first = in_items(items.as_slice(), at, in_expr(on, at, found));
            match other {
                None => first,
                Some(s) => in_stmt(s.get(), at, first),
            }
        }
        Stmt::Loop {
            first,
            test,
            step,
            body,
            spot,
            ..
        } => {
            let before = in_expr(first, at, look(spot, at, found));
            let before = in_expr(step, at, in_expr(test, at, before));
            in_stmt(body.get(), at, before)
        }
        Stmt::Assign {
            to,
            value,
            spot,
            ..
        } => {
            let first = in_exprs(to.as_slice(), at, look(spot, at, found));
            in_expr(value, at, first)
        }
        Stmt::Call { actuals, spot, .. } => in_exprs(actuals.as_slice(), at, look(spot, at, found)),
        Stmt::Made {
            locals,
            before,
            body,
        } => {
            let first = in_locals(locals.as_slice(), at, found);
            let first = in_body(before.as_slice(), at, first);
            match body {
                None => first,
                Some(s) => in_stmt(s.get(), at, first),
            }
        }
        Stmt::Break => found,
        Stmt::Continue => found,
        Stmt::Return => found,
    }
}
