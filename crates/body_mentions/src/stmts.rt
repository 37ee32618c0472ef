//! Statements.

ghost use Rattle.std.specs.Prelude.{◌≡◌, map, IfOk, OnOk};
ghost use Rattle.design_breaks.specs.Actions.{actions};
ghost use Rattle.body_mentions.specs.Walk as spec;

use crate::exprs::{add_all, add_call, add_mentions};
use crate::{Mentioned, Numbers};
use std::alloc::{AllocError, Global};
use sv_types::{CaseItem, Local, Stmt};

fn add_local(local: &Local, to: &mut Mentioned) -> Result<(), AllocError>
    ensures { OnOk result (to.new ≡ spec.initial_walk local.now to.old) }
{
    match &local.initial {
        None => Ok(()),
        Some(e) => add_mentions(e, to),
    }
}

fn add_locals(locals: &[Local], to: &mut Mentioned) -> Result<(), AllocError>
    ensures { OnOk result (to.new ≡ spec.one_by_one (map spec.initial_walk locals.now) to.old) }
{
    for local in locals {
        add_local(local, to)?;
    }
    Ok(())
}

// The values of all items of a `case`.
fn add_values(items: &[CaseItem], to: &mut Mentioned) -> Result<(), AllocError>
    ensures { OnOk result (to.new ≡ spec.all_values (map spec.item_walk items.now) to.old) }
{
    for item in items {
        add_all(item.values.as_slice(), to)?;
    }
    Ok(())
}

#[cycle(statements)]
fn add_items(items: &[CaseItem], to: &mut Mentioned) -> Result<(), AllocError>
    ensures { OnOk result (to.new ≡ spec.all_bodies (map spec.item_walk items.now) to.old) }
{
    for item in items {
        add_stmt(&item.body, to)?;
    }
    Ok(())
}

#[cycle(statements)]
fn add_body(body: &[Stmt], to: &mut Mentioned) -> Result<(), AllocError>
    ensures { OnOk result (to.new ≡ spec.one_by_one (map spec.stmt_walk body.now) to.old) }
{
    for stmt in body {
        add_stmt(stmt, to)?;
    }
    Ok(())
}

#[cycle(statements)]
fn add_stmt(stmt: &Stmt, to: &mut Mentioned) -> Result<(), AllocError>
    ensures { OnOk result (to.new ≡ spec.stmt_walk stmt.now to.old) }
{
    match stmt {
        Stmt::Block { locals, body } => {
            add_locals(locals.as_slice(), to)?;
            add_body(body.as_slice(), to)
        }
        Stmt::If { on, body, other } => {
            add_mentions(on, to)?;
            add_stmt(body.get(), to)?;
            match other {
                None => Ok(()),
                Some(s) => add_stmt(s.get(), to),
            }
        }
        Stmt::Case {
            on,
            items,
            other,
            ..
        } => {
            add_mentions(on, to)?;
            add_values(items.as_slice(), to)?;
            add_items(items.as_slice(), to)?;
            match other {
                None => Ok(()),
                Some(s) => add_stmt(s.get(), to),
            }
        }
        Stmt::Loop {
            first,
            test,
            step,
            body,
            ..
        } => {
            add_mentions(first, to)?;
            add_mentions(test, to)?;
            add_mentions(step, to)?;
            add_stmt(body.get(), to)
        }
        Stmt::Assign {
            to: targets,
            value,
            ..
        } => {
            add_all(targets.as_slice(), to)?;
            add_mentions(value, to)
        }
        Stmt::Call {
            function,
            actuals,
            ..
        } => {
            add_call(*function, to)?;
            add_all(actuals.as_slice(), to)
        }
        Stmt::Made {
            locals,
            before,
            body,
        } => {
            add_locals(locals.as_slice(), to)?;
            add_body(before.as_slice(), to)?;
            match body {
                None => Ok(()),
                Some(s) => add_stmt(s.get(), to),
            }
        }
        Stmt::Break => Ok(()),
        Stmt::Continue => Ok(()),
        Stmt::Return => Ok(()),
    }
}

/// What a statement mentions, in the order of the text, or want of memory.
pub fn mentions_of(alloc: Global, stmt: &Stmt) -> Result<Mentioned, AllocError>
    ensures whole { IfOk result (λ r. r.whole ≡ (actions stmt.now).said.whole) }
    ensures calls { IfOk result (λ r. r.calls ≡ (actions stmt.now).said.calls) }
{
    let mut all = Mentioned {
        whole: Numbers::new(alloc),
        calls: Numbers::new(alloc),
    };
    add_stmt(stmt, &mut all)?;
    Ok(all)
}
