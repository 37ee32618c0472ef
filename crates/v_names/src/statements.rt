//! What statements name.

ghost use Rattle.std.specs.Prelude.{◌≡◌, ◌+◌, ◌++◌, map, flat_map, IfOk, OnOk};
ghost use Rattle.v_meaning.specs.Statements as means;
ghost use Rattle.v_meaning.specs.Statements.{target, doing, doing_of};
ghost use Rattle.v_eval.specs.Scopes.{scope_of};
ghost use Rattle.v_names.specs.Names.{Adds, item_of, item_named, items_named, else_doing};

use crate::expressions::{Numbers, all_names, expr_names, sels_names};
use std::alloc::{AllocError, Global};
use v_eval::Scope;
use v_run::declared;
use v_tree::{VBranch, VCaseItem, VLocal, VLval, VStmt};

// Adds what the indices of targets name.
#[cycle(targets)]
fn lvals_names(scope: Scope<'_>, parts: &[VLval], to: &mut Numbers) -> Result<(), AllocError>
    ensures { OnOk result (to.new ≡ to.old ++ flat_map (λ (t : means.Target). t.names (scope_of scope.entry)) (map target parts.now)) }
{
    for part in parts {
        lval_names(scope, part, to)?;
    }
    Ok(())
}

/// Adds what the indices of a target name. Or want of memory.
#[cycle(targets)]
pub fn lval_names(scope: Scope<'_>, lval: &VLval, to: &mut Numbers) -> Result<(), AllocError>
    ensures { OnOk result (to.new ≡ to.old ++ (target lval.now).names (scope_of scope.entry)) }
{
    match lval {
        VLval::Name { name: _, sels } => {
            sels_names(scope, sels.as_slice(), to)?;
            Ok(())
        }
        VLval::Concat(parts) => {
            lvals_names(scope, parts.as_slice(), to)?;
            Ok(())
        }
    }
}

// A number behind so many, which memory runs out before.
fn behind(next: u32, count: usize) -> Result<u32, AllocError>
    ensures { IfOk result (λ n. n ≡ next + count) }
{
    let n = next as u128 + count as u128;
    if n < 4294967296 {
        Ok(n as u32)
    } else {
        Err(AllocError)
    }
}

// Adds what statements name.
#[cycle(names)]
fn stmts_names(
    alloc: Global,
    scope: Scope<'_>,
    stmts: &[VStmt],
    to: &mut Numbers,
) -> Result<(), AllocError>
    ensures { OnOk result (Adds to.old to.new ((means.sequence (map doing stmts.now)).names (scope_of scope.entry))) }
{
    for s in stmts {
        stmt_names(alloc, scope, s, to)?;
    }
    Ok(())
}

// Adds what the statements of a block with locals name.
#[cycle(names)]
fn block_names(
    alloc: Global,
    scope: Scope<'_>,
    locals: &[VLocal],
    stmts: &[VStmt],
    to: &mut Numbers,
) -> Result<(), AllocError>
    ensures { OnOk result (Adds to.old to.new ((means.sequence (map doing stmts.now)).names (means.inside locals.now (scope_of scope.entry)))) }
{
    let own = declared(alloc, scope.next, locals, scope.locals)?;
    let inner = Scope {
        locals: own.as_slice(),
        next: behind(scope.next, locals.len())?,
        module: &*scope.module,
        first: scope.first,
        depth: scope.depth,
    };
    stmts_names(alloc, inner, stmts, to)
}

// Adds what the `default` among items names, if there is one.
#[cycle(names)]
fn other_names(
    alloc: Global,
    scope: Scope<'_>,
    items: &[VCaseItem],
    to: &mut Numbers,
) -> Result<(), AllocError>
    ensures { OnOk result (Adds to.old to.new ((means.otherwise (map item_of items.now)).names (scope_of scope.entry))) }
{
    for item in items {
        match item {
            VCaseItem::Item { values: _, body: _ } => {}
            VCaseItem::Default(body) => return branch_names(alloc, scope, body, to),
        }
    }
    Ok(())
}

// Adds what an item of a `case` names that isn't the `default`.
#[cycle(names)]
fn item_names(
    alloc: Global,
    scope: Scope<'_>,
    item: &VCaseItem,
    to: &mut Numbers,
) -> Result<(), AllocError>
    ensures { OnOk result (Adds to.old to.new (item_named (item_of item.now) (scope_of scope.entry))) }
{
    match item {
        VCaseItem::Item { values, body } => {
            all_names(scope, values.as_slice(), to)?;
            branch_names(alloc, scope, body, to)?;
            Ok(())
        }
        VCaseItem::Default(_) => Ok(()),
    }
}

// Adds what the items of a `case` name that aren't the `default`.
#[cycle(names)]
fn items_names(
    alloc: Global,
    scope: Scope<'_>,
    items: &[VCaseItem],
    to: &mut Numbers,
) -> Result<(), AllocError>
    ensures { OnOk result (Adds to.old to.new (items_named (map item_of items.now) (scope_of scope.entry))) }
{
    for item in items {
        item_names(alloc, scope, item, to)?;
    }
    Ok(())
}

/// Adds what a statement names, if there is one: the signals and locals that stand in it other than as targets. Or want of memory.
#[cycle(names)]
pub fn branch_names(
    alloc: Global,
    scope: Scope<'_>,
    branch: &VBranch,
    to: &mut Numbers,
) -> Result<(), AllocError>
    ensures { OnOk result (Adds to.old to.new ((doing_of branch.now).names (scope_of scope.entry))) }
{
    match branch {
        VBranch::Statement(s) => {
            stmt_names(alloc, scope, s.get(), to)?;
            Ok(())
        }
        VBranch::Empty => Ok(()),
    }
}

// Adds what an `else` names, if there is one.
#[cycle(names)]
fn else_names(
    alloc: Global,
    scope: Scope<'_>,
    other: &Option<VBranch>,
    to: &mut Numbers,
) -> Result<(), AllocError>
    ensures { OnOk result (Adds to.old to.new ((else_doing other.now).names (scope_of scope.entry))) }
{
    match other {
        None => Ok(()),
        Some(other) => {
            branch_names(alloc, scope, other, to)?;
            Ok(())
        }
    }
}

/// Adds what a statement names: the signals and locals that stand in it other than as targets. Or want of memory.
#[cycle(names)]
pub fn stmt_names(
    alloc: Global,
    scope: Scope<'_>,
    s: &VStmt,
    to: &mut Numbers,
) -> Result<(), AllocError>
    ensures { OnOk result (Adds to.old to.new ((doing s.now).names (scope_of scope.entry))) }
{
    match s {
        VStmt::Block { label, stmts } => match label {
            None => {
                block_names(alloc, scope, &[], stmts.as_slice(), to)?;
                Ok(())
            }
            Some(label) => {
                let locals = label.locals.as_slice();
                block_names(alloc, scope, locals, stmts.as_slice(), to)?;
                Ok(())
            }
        },
        VStmt::If { on, then, other } => {
            expr_names(scope, on, to)?;
            branch_names(alloc, scope, then, to)?;
            else_names(alloc, scope, other, to)?;
            Ok(())
        }
        VStmt::Case { kind: _, on, items } => {
            expr_names(scope, on, to)?;
            items_names(alloc, scope, items.as_slice(), to)?;
            other_names(alloc, scope, items.as_slice(), to)?;
            Ok(())
        }
        VStmt::Assign {
            target,
            value,
            later: _,
        } => {
            expr_names(scope, value, to)?;
            lval_names(scope, target, to)?;
            Ok(())
        }
    }
}
