//! What statements write.

ghost use Rattle.std.specs.Prelude.{◌≡◌, ◌≤◌, ◌+◌, ◌++◌, cond, not, map, IfOk, OnOk};
ghost use Rattle.v_meaning.specs.Statements as means;
ghost use Rattle.v_meaning.specs.Statements.{doing, doing_of};
ghost use Rattle.v_eval.specs.Answering.{Answers};
ghost use Rattle.v_eval.specs.Scopes.{scope_of};
ghost use Rattle.v_exec.specs.Choices.{item_of};
ghost use Rattle.v_exec.specs.Limits.{stmt_most, branch_most, limits_of_item, bodies_in, most_in_turn};
ghost use Rattle.v_constants.specs.Constants.{AreQuiet};
ghost use Rattle.v_writes.specs.Writes.{use_in, made, item_made, items_made};

use crate::targets::{Writes, lval_writes};
use b4_core::Vec4;
use std::alloc::{AllocError, Global};
use v_eval::{Held, Scope, Vectors};
use v_run::declared;
use v_tree::{VBranch, VCaseItem, VLocal, VStmt};

// A number behind so many, which memory runs out before.
fn behind(next: u32, count: usize) -> Result<u32, AllocError>
    ensures { IfOk result (λ n. n ≡ next + count) }
{
    let n = next as u128 + count as u128;
    if n < 4294967296 {
        Ok(n as u32)
    } else {
        Err(AllocError)
    }
}

// Whether both are so, or neither.
fn is_same(a: bool, b: bool) -> bool
    ensures { result ≡ cond a b (not b) }
{
    match (a, b) {
        (true, _) => b,
        (false, _) => !b,
    }
}

// Adds what statements may write.
#[cycle(writes)]
fn stmts_writes<F: Fn(Held<'_>, usize, Vectors) -> Result<Vec4, AllocError>>(
    alloc: Global,
    scope: Scope<'_>,
    quiet: &[bool],
    call: &F,
    later: bool,
    stmts: &[VStmt],
    to: &mut Writes,
) -> Result<(), AllocError>
    requires callable { F.IsAlwaysCallable call.now }
    requires right { Answers scope (F.post call.now) }
    requires calls { AreQuiet scope quiet.now }
    requires narrow { most_in_turn (map stmt_most stmts.now) (scope_of scope) ≤ 128 }
    ensures { OnOk result (map use_in to.new ≡ map use_in to.old ++ made later (means.sequence (map doing stmts.now)) (scope_of scope.entry)) }
{
    for s in stmts {
        stmt_writes(alloc, scope, quiet, call, later, s, to)?;
    }
    Ok(())
}

// Adds what the statements of a block with locals may write.
#[cycle(writes)]
fn block_writes<F: Fn(Held<'_>, usize, Vectors) -> Result<Vec4, AllocError>>(
    alloc: Global,
    scope: Scope<'_>,
    quiet: &[bool],
    call: &F,
    later: bool,
    locals: &[VLocal],
    stmts: &[VStmt],
    to: &mut Writes,
) -> Result<(), AllocError>
    requires callable { F.IsAlwaysCallable call.now }
    requires right { Answers scope (F.post call.now) }
    requires calls { AreQuiet scope quiet.now }
    requires narrow { most_in_turn (map stmt_most stmts.now) (means.inside locals.now (scope_of scope)) ≤ 128 }
    ensures { OnOk result (map use_in to.new ≡ map use_in to.old ++ made later (means.sequence (map doing stmts.now)) (means.inside locals.now (scope_of scope.entry))) }
{
    let own = declared(alloc, scope.next, locals, scope.locals)?;
    let inner = Scope {
        locals: own.as_slice(),
        next: behind(scope.next, locals.len())?,
        module: &*scope.module,
        first: scope.first,
        depth: scope.depth,
    };
    stmts_writes(alloc, inner, quiet, call, later, stmts, to)
}

// Adds what the `default` among items may write, if there is one.
#[cycle(writes)]
fn other_writes<F: Fn(Held<'_>, usize, Vectors) -> Result<Vec4, AllocError>>(
    alloc: Global,
    scope: Scope<'_>,
    quiet: &[bool],
    call: &F,
    later: bool,
    items: &[VCaseItem],
    to: &mut Writes,
) -> Result<(), AllocError>
    requires callable { F.IsAlwaysCallable call.now }
    requires right { Answers scope (F.post call.now) }
    requires calls { AreQuiet scope quiet.now }
    requires narrow { most_in_turn (bodies_in (map limits_of_item items.now)) (scope_of scope) ≤ 128 }
    ensures { OnOk result (map use_in to.new ≡ map use_in to.old ++ made later (means.otherwise (map item_of items.now)) (scope_of scope.entry)) }
{
    for item in items {
        match item {
            VCaseItem::Item { values: _, body: _ } => {}
            VCaseItem::Default(body) => {
                return branch_writes(alloc, scope, quiet, call, later, body, to);
            }
        }
    }
    Ok(())
}

// Adds what an item of a `case` may write that isn't the `default`.
#[cycle(writes)]
fn item_writes<F: Fn(Held<'_>, usize, Vectors) -> Result<Vec4, AllocError>>(
    alloc: Global,
    scope: Scope<'_>,
    quiet: &[bool],
    call: &F,
    later: bool,
    item: &VCaseItem,
    to: &mut Writes,
) -> Result<(), AllocError>
    requires callable { F.IsAlwaysCallable call.now }
    requires right { Answers scope (F.post call.now) }
    requires calls { AreQuiet scope quiet.now }
    requires narrow { (limits_of_item item.now).body (scope_of scope) ≤ 128 }
    ensures { OnOk result (map use_in to.new ≡ map use_in to.old ++ item_made later (item_of item.now) (scope_of scope.entry)) }
{
    match item {
        VCaseItem::Item { values: _, body } => {
            branch_writes(alloc, scope, quiet, call, later, body, to)
        }
        VCaseItem::Default(_) => Ok(()),
    }
}

// Adds what the items of a `case` may write that aren't the `default`.
#[cycle(writes)]
fn items_writes<F: Fn(Held<'_>, usize, Vectors) -> Result<Vec4, AllocError>>(
    alloc: Global,
    scope: Scope<'_>,
    quiet: &[bool],
    call: &F,
    later: bool,
    items: &[VCaseItem],
    to: &mut Writes,
) -> Result<(), AllocError>
    requires callable { F.IsAlwaysCallable call.now }
    requires right { Answers scope (F.post call.now) }
    requires calls { AreQuiet scope quiet.now }
    requires narrow { most_in_turn (bodies_in (map limits_of_item items.now)) (scope_of scope) ≤ 128 }
    ensures { OnOk result (map use_in to.new ≡ map use_in to.old ++ items_made later (map item_of items.now) (scope_of scope.entry)) }
{
    for item in items {
        item_writes(alloc, scope, quiet, call, later, item, to)?;
    }
    Ok(())
}

/// Adds what a statement may write, if there is one, by its blocking or its nonblocking assignments. Or want of memory.
#[cycle(writes)]
pub fn branch_writes<F: Fn(Held<'_>, usize, Vectors) -> Result<Vec4, AllocError>>(
    alloc: Global,
    scope: Scope<'_>,
    quiet: &[bool],
    call: &F,
    later: bool,
    branch: &VBranch,
    to: &mut Writes,
) -> Result<(), AllocError>
    requires callable { F.IsAlwaysCallable call.now }
    requires right { Answers scope (F.post call.now) }
    requires calls { AreQuiet scope quiet.now }
    requires narrow { branch_most branch.now (scope_of scope) ≤ 128 }
    ensures { OnOk result (map use_in to.new ≡ map use_in to.old ++ made later (doing_of branch.now) (scope_of scope.entry)) }
{
    match branch {
        VBranch::Statement(s) => stmt_writes(alloc, scope, quiet, call, later, s.get(), to),
        VBranch::Empty => Ok(()),
    }
}

/// Adds what a statement may write by its blocking assignments, or by its nonblocking ones where `later`. `quiet` says of each
/// item of the module whether the function there reads no signal, and `call` gives what the function at an item gives. Or want
/// of memory.
#[cycle(writes)]
pub fn stmt_writes<F: Fn(Held<'_>, usize, Vectors) -> Result<Vec4, AllocError>>(
    alloc: Global,
    scope: Scope<'_>,
    quiet: &[bool],
    call: &F,
    later: bool,
    s: &VStmt,
    to: &mut Writes,
) -> Result<(), AllocError>
    requires callable { F.IsAlwaysCallable call.now }
    requires right { Answers scope (F.post call.now) }
    requires calls { AreQuiet scope quiet.now }
    requires narrow { stmt_most s.now (scope_of scope) ≤ 128 }
    ensures { OnOk result (map use_in to.new ≡ map use_in to.old ++ made later (doing s.now) (scope_of scope.entry)) }
{
    match s {
        VStmt::Block { label, stmts } => match label {
            None => block_writes(alloc, scope, quiet, call, later, &[], stmts.as_slice(), to),
            Some(label) => {
                let locals = label.locals.as_slice();
                block_writes(
                    alloc,
                    scope,
                    quiet,
                    call,
                    later,
                    locals,
                    stmts.as_slice(),
                    to,
                )
            }
        },
        VStmt::If { on: _, then, other } => {
            branch_writes(alloc, scope, quiet, call, later, then, to)?;
            match other {
                None => Ok(()),
                Some(other) => branch_writes(alloc, scope, quiet, call, later, other, to),
            }
        }
        VStmt::Case {
            kind: _,
            on: _,
            items,
        } => {
            items_writes(alloc, scope, quiet, call, later, items.as_slice(), to)?;
            other_writes(alloc, scope, quiet, call, later, items.as_slice(), to)
        }
        VStmt::Assign {
            target,
            value: _,
            later: is_later,
        } => {
            if is_same(*is_later, later) {
                lval_writes(alloc, scope, quiet, call, target, to)
            } else {
                Ok(())
            }
        }
    }
}
