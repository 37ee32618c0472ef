//! What statements read.

ghost use Rattle.std.specs.Prelude.{◌≡◌, ◌+◌, map, flat_map, IfOk, OnOk};
ghost use Rattle.v_meaning.specs.Statements as means;
ghost use Rattle.v_meaning.specs.Statements.{target, doing, doing_of};
ghost use Rattle.v_eval.specs.Scopes.{scope_of};
ghost use Rattle.v_reads.specs.Reads.{Adds, FunctionsRead, item_of, item_read, items_read, else_doing};

use crate::expressions::{all_reads, expr_reads, sels_reads};
use crate::numbers::Numbers;
use std::alloc::{AllocError, Global};
use v_eval::Scope;
use v_run::declared;
use v_tree::{VBranch, VCaseItem, VLocal, VLval, VStmt};

// Adds what the indices of targets read.
#[cycle(targets)]
fn lvals_reads(
    scope: Scope<'_>,
    functions: &[Numbers],
    parts: &[VLval],
    to: &mut Numbers,
) -> Result<(), AllocError>
    requires { FunctionsRead scope functions.now }
    ensures { OnOk result (Adds to.old to.new (flat_map (λ (t : means.Target). t.reads (scope_of scope.entry)) (map target parts.now))) }
{
    for part in parts {
        lval_reads(scope, functions, part, to)?;
    }
    Ok(())
}

/// Adds what the indices of a target read. `functions` has for each item of the module what the function there reads. Or want of
/// memory.
#[cycle(targets)]
pub fn lval_reads(
    scope: Scope<'_>,
    functions: &[Numbers],
    lval: &VLval,
    to: &mut Numbers,
) -> Result<(), AllocError>
    requires { FunctionsRead scope functions.now }
    ensures { OnOk result (Adds to.old to.new ((target lval.now).reads (scope_of scope.entry))) }
{
    match lval {
        VLval::Name { name: _, sels } => {
            sels_reads(scope, functions, sels.as_slice(), to)?;
            Ok(())
        }
        VLval::Concat(parts) => {
            lvals_reads(scope, functions, parts.as_slice(), to)?;
            Ok(())
        }
    }
}

/// A number behind so many, which memory runs out before.
pub(crate) fn behind(next: u32, count: usize) -> Result<u32, AllocError>
    ensures { IfOk result (λ n. n ≡ next + count) }
{
    let n = next as u128 + count as u128;
    if n < 4294967296 {
        Ok(n as u32)
    } else {
        Err(AllocError)
    }
}

// Adds what statements read.
#[cycle(reads)]
fn stmts_reads(
    alloc: Global,
    scope: Scope<'_>,
    functions: &[Numbers],
    stmts: &[VStmt],
    to: &mut Numbers,
) -> Result<(), AllocError>
    requires { FunctionsRead scope functions.now }
    ensures { OnOk result (Adds to.old to.new ((means.sequence (map doing stmts.now)).reads (scope_of scope.entry))) }
{
    for s in stmts {
        stmt_reads(alloc, scope, functions, s, to)?;
    }
    Ok(())
}

// Adds what the statements of a block with locals read.
#[cycle(reads)]
fn block_reads(
    alloc: Global,
    scope: Scope<'_>,
    functions: &[Numbers],
    locals: &[VLocal],
    stmts: &[VStmt],
    to: &mut Numbers,
) -> Result<(), AllocError>
    requires { FunctionsRead scope functions.now }
    ensures { OnOk result (Adds to.old to.new ((means.sequence (map doing stmts.now)).reads (means.inside locals.now (scope_of scope.entry)))) }
{
    let own = declared(alloc, scope.next, locals, scope.locals)?;
    let inner = Scope {
        locals: own.as_slice(),
        next: behind(scope.next, locals.len())?,
        module: &*scope.module,
        first: scope.first,
        depth: scope.depth,
    };
    stmts_reads(alloc, inner, functions, stmts, to)
}

// Adds what the `default` among items reads, if there is one.
#[cycle(reads)]
fn other_reads(
    alloc: Global,
    scope: Scope<'_>,
    functions: &[Numbers],
    items: &[VCaseItem],
    to: &mut Numbers,
) -> Result<(), AllocError>
    requires { FunctionsRead scope functions.now }
    ensures { OnOk result (Adds to.old to.new ((means.otherwise (map item_of items.now)).reads (scope_of scope.entry))) }
{
    for item in items {
        match item {
            VCaseItem::Item { values: _, body: _ } => {}
            VCaseItem::Default(body) => return branch_reads(alloc, scope, functions, body, to),
        }
    }
    Ok(())
}

// Adds what an item of a `case` reads that isn't the `default`.
#[cycle(reads)]
fn item_reads(
    alloc: Global,
    scope: Scope<'_>,
    functions: &[Numbers],
    item: &VCaseItem,
    to: &mut Numbers,
) -> Result<(), AllocError>
    requires { FunctionsRead scope functions.now }
    ensures { OnOk result (Adds to.old to.new (item_read (item_of item.now) (scope_of scope.entry))) }
{
    match item {
        VCaseItem::Item { values, body } => {
            all_reads(scope, functions, values.as_slice(), to)?;
            branch_reads(alloc, scope, functions, body, to)?;
            Ok(())
        }
        VCaseItem::Default(_) => Ok(()),
    }
}

// Adds what the items of a `case` read that aren't the `default`.
#[cycle(reads)]
fn items_reads(
    alloc: Global,
    scope: Scope<'_>,
    functions: &[Numbers],
    items: &[VCaseItem],
    to: &mut Numbers,
) -> Result<(), AllocError>
    requires { FunctionsRead scope functions.now }
    ensures { OnOk result (Adds to.old to.new (items_read (map item_of items.now) (scope_of scope.entry))) }
{
    for item in items {
        item_reads(alloc, scope, functions, item, to)?;
    }
    Ok(())
}

/// Adds what a statement reads, if there is one: the signals and locals that valuing its expressions, conditions and indices
/// reads. `functions` has for each item of the module what the function there reads. Or want of memory.
#[cycle(reads)]
pub fn branch_reads(
    alloc: Global,
    scope: Scope<'_>,
    functions: &[Numbers],
    branch: &VBranch,
    to: &mut Numbers,
) -> Result<(), AllocError>
    requires { FunctionsRead scope functions.now }
    ensures { OnOk result (Adds to.old to.new ((doing_of branch.now).reads (scope_of scope.entry))) }
{
    match branch {
        VBranch::Statement(s) => {
            stmt_reads(alloc, scope, functions, s.get(), to)?;
            Ok(())
        }
        VBranch::Empty => Ok(()),
    }
}

// Adds what an `else` reads, if there is one.
#[cycle(reads)]
fn else_reads(
    alloc: Global,
    scope: Scope<'_>,
    functions: &[Numbers],
    other: &Option<VBranch>,
    to: &mut Numbers,
) -> Result<(), AllocError>
    requires { FunctionsRead scope functions.now }
    ensures { OnOk result (Adds to.old to.new ((else_doing other.now).reads (scope_of scope.entry))) }
{
    match other {
        None => Ok(()),
        Some(other) => {
            branch_reads(alloc, scope, functions, other, to)?;
            Ok(())
        }
    }
}

/// Adds what a statement reads: the signals and locals that valuing its expressions, conditions and indices reads. `functions` has
/// for each item of the module what the function there reads. Or want of memory.
#[cycle(reads)]
pub fn stmt_reads(
    alloc: Global,
    scope: Scope<'_>,
    functions: &[Numbers],
    s: &VStmt,
    to: &mut Numbers,
) -> Result<(), AllocError>
    requires { FunctionsRead scope functions.now }
    ensures { OnOk result (Adds to.old to.new ((doing s.now).reads (scope_of scope.entry))) }
{
    match s {
        VStmt::Block { label, stmts } => match label {
            None => {
                block_reads(alloc, scope, functions, &[], stmts.as_slice(), to)?;
                Ok(())
            }
            Some(label) => {
                let locals = label.locals.as_slice();
                block_reads(alloc, scope, functions, locals, stmts.as_slice(), to)?;
                Ok(())
            }
        },
        VStmt::If { on, then, other } => {
            expr_reads(scope, functions, on, to)?;
            branch_reads(alloc, scope, functions, then, to)?;
            else_reads(alloc, scope, functions, other, to)?;
            Ok(())
        }
        VStmt::Case { kind: _, on, items } => {
            expr_reads(scope, functions, on, to)?;
            items_reads(alloc, scope, functions, items.as_slice(), to)?;
            other_reads(alloc, scope, functions, items.as_slice(), to)?;
            Ok(())
        }
        VStmt::Assign {
            target,
            value,
            later: _,
        } => {
            expr_reads(scope, functions, value, to)?;
            lval_reads(scope, functions, target, to)?;
            Ok(())
        }
    }
}
