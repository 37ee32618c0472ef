//! What stands in typed statements.

ghost use Rattle.std.specs.Prelude.{◌≡◌, map, OnOk};
ghost use Rattle.expr_type.specs.Uses as uses;

use crate::exprs::{add_all, add_call, add_uses};
use expr_type::Uses;
use std::alloc::AllocError;
use sv_types::{CaseItem, Local, Stmt};

fn add_local(local: &Local, to: &mut Uses) -> Result<(), AllocError>
    ensures { OnOk result (to.new ≡ uses.initial_uses local.now to.old) }
{
    match &local.initial {
        None => Ok(()),
        Some(e) => add_uses(e, to),
    }
}

fn add_locals(locals: &[Local], to: &mut Uses) -> Result<(), AllocError>
    ensures { OnOk result (to.new ≡ uses.in_turn (map uses.initial_uses locals.now) to.old) }
{
    for local in locals {
        add_local(local, to)?;
    }
    Ok(())
}

#[cycle(statements)]
fn add_item(item: &CaseItem, to: &mut Uses) -> Result<(), AllocError>
    ensures { OnOk result (to.new ≡ uses.item_uses item.now to.old) }
{
    add_all(item.values.as_slice(), to)?;
    add_stmt(&item.body, to)
}

#[cycle(statements)]
fn add_items(items: &[CaseItem], to: &mut Uses) -> Result<(), AllocError>
    ensures { OnOk result (to.new ≡ uses.in_turn (map uses.item_uses items.now) to.old) }
{
    for item in items {
        add_item(item, to)?;
    }
    Ok(())
}

#[cycle(statements)]
fn add_body(body: &[Stmt], to: &mut Uses) -> Result<(), AllocError>
    ensures { OnOk result (to.new ≡ uses.in_turn (map uses.stmt_uses body.now) to.old) }
{
    for stmt in body {
        add_stmt(stmt, to)?;
    }
    Ok(())
}

/// Adds what stands in a statement. Or want of memory.
#[cycle(statements)]
pub(crate) fn add_stmt(stmt: &Stmt, to: &mut Uses) -> Result<(), AllocError>
    ensures { OnOk result (to.new ≡ uses.stmt_uses stmt.now to.old) }
{
    match stmt {
        Stmt::Block { locals, body } => {
            add_locals(locals.as_slice(), to)?;
            add_body(body.as_slice(), to)
        }
        Stmt::If { on, body, other } => {
            add_uses(on, to)?;
            add_stmt(body.get(), to)?;
            match other {
                None => Ok(()),
                Some(s) => add_stmt(s.get(), to),
            }
        }
        Stmt::Case {
            on,
            items,
            other,
            ..
        } => {
            add_uses(on, to)?;
            add_items(items.as_slice(), to)?;
            match other {
                None => Ok(()),
                Some(s) => add_stmt(s.get(), to),
            }
        }
        Stmt::Loop {
            first,
            test,
            step,
            body,
            ..
        } => {
            add_uses(first, to)?;
            add_uses(test, to)?;
            add_uses(step, to)?;
            add_stmt(body.get(), to)
        }
        Stmt::Assign {
            to: targets,
            value,
            ..
        } => {
            add_all(targets.as_slice(), to)?;
            add_uses(value, to)
        }
        Stmt::Call {
            function,
            actuals,
            ..
        } => {
            add_call(*function, to)?;
            add_all(actuals.as_slice(), to)
        }
        Stmt::Made {
            locals,
            before,
            body,
        } => {
            add_locals(locals.as_slice(), to)?;
            add_body(before.as_slice(), to)?;
            match body {
                None => Ok(()),
                Some(s) => add_stmt(s.get(), to),
            }
        }
        Stmt::Break => Ok(()),
        Stmt::Continue => Ok(()),
        Stmt::Return => Ok(()),
    }
}
