//! The calls in a statement.

ghost use Rattle.std.specs.Prelude.{◌≡◌, map, OnOk};
ghost use Rattle.v_scopes.specs.Env.{found, hidden_in, Within};
ghost use Rattle.v_stmt_rules.specs.Stmts.{block_given};
ghost use Rattle.v_functions.specs.Numbered.{numbers_in};
ghost use Rattle.v_functions.specs.Walks as means;

use crate::expressions::{expr_walked, list_walked, target_walked};
use crate::table::Functions;
use crate::walk::Walk;
use std::alloc::{AllocError, Global};
use v_scopes::Scope;
use v_stmt_rules::enter_block;
use v_tree::{VBranch, VCaseItem, VExpr, VLabel, VLval, VStmt};

// Declares the variables of a named block and the blocks of its statements.
fn block_entered(
    alloc: Global,
    scope: &mut Scope,
    label: &VLabel,
    stmts: &[VStmt],
) -> Result<(), AllocError>
    ensures declares { OnOk result (found scope.new ≡ block_given label.now.locals (means.labels_of (map means.stmt_walked stmts.now)) (found scope.old)) }
    ensures within { OnOk result (Within scope.old scope.new) }
{
    enter_block(alloc, scope, label, stmts)
}

// An assignment.
fn assignment(
    functions: &Functions,
    scope: &Scope,
    target: &VLval,
    value: &VExpr,
    walk: &mut Walk,
) -> Result<(), AllocError>
    ensures { OnOk result (walk.new ≡ means.skipped 1 (means.expr_walked value.now (numbers_in functions.now) (found scope.now) (means.skipped 1 (means.target_walked target.now (numbers_in functions.now) (found scope.now) walk.old)))) }
{
    target_walked(functions, scope, target, walk)?;
    walk.skip(1);
    expr_walked(functions, scope, value, walk)?;
    walk.skip(1);
    Ok(())
}

// A named block.
#[cycle(statement)]
fn block_walked(
    alloc: Global,
    functions: &Functions,
    scope: &mut Scope,
    label: &VLabel,
    stmts: &[VStmt],
    walk: &mut Walk,
) -> Result<(), AllocError>
    ensures tells { OnOk result (walk.new ≡ means.named_walked label.now (map means.stmt_walked stmts.now) (numbers_in functions.now) (found scope.old) walk.old) }
    ensures keeps { OnOk result (found scope.new ≡ found scope.old) }
    ensures hides { OnOk result (hidden_in scope.new ≡ hidden_in scope.old) }
{
    walk.skip(3);
    walk.skip_locals(label.locals.as_slice());
    let outside = scope.mark();
    block_entered(alloc, scope, label, stmts)?;
    stmts_walked(alloc, functions, scope, stmts, walk)?;
    scope.leave(outside)?;
    walk.skip(1);
    Ok(())
}

// Statements one behind the other.
#[cycle(statement)]
fn stmts_walked(
    alloc: Global,
    functions: &Functions,
    scope: &mut Scope,
    stmts: &[VStmt],
    walk: &mut Walk,
) -> Result<(), AllocError>
    ensures tells { OnOk result (walk.new ≡ means.each_walked (means.walks_of (map means.stmt_walked stmts.now)) (numbers_in functions.now) (found scope.old) walk.old) }
    ensures keeps { OnOk result (found scope.new ≡ found scope.old) }
    ensures hides { OnOk result (hidden_in scope.new ≡ hidden_in scope.old) }
{
    for stmt in stmts {
        stmt_walked(alloc, functions, scope, stmt, walk)?;
    }
    Ok(())
}

// An `else`, or none.
#[cycle(statement)]
fn else_walked(
    alloc: Global,
    functions: &Functions,
    scope: &mut Scope,
    other: &Option<VBranch>,
    walk: &mut Walk,
) -> Result<(), AllocError>
    ensures tells { OnOk result (walk.new ≡ means.else_walked (means.branch_if other.now) (numbers_in functions.now) (found scope.old) walk.old) }
    ensures keeps { OnOk result (found scope.new ≡ found scope.old) }
    ensures hides { OnOk result (hidden_in scope.new ≡ hidden_in scope.old) }
{
    match other {
        None => Ok(()),
        Some(branch) => {
            walk.skip(1);
            branch_walked(alloc, functions, scope, branch, walk)
        }
    }
}

// An item of a `case`.
#[cycle(statement)]
fn case_walked(
    alloc: Global,
    functions: &Functions,
    scope: &mut Scope,
    case: &VCaseItem,
    walk: &mut Walk,
) -> Result<(), AllocError>
    ensures tells { OnOk result (walk.new ≡ (means.case_walked case.now).walk (numbers_in functions.now) (found scope.old) walk.old) }
    ensures keeps { OnOk result (found scope.new ≡ found scope.old) }
    ensures hides { OnOk result (hidden_in scope.new ≡ hidden_in scope.old) }
{
    match case {
        VCaseItem::Item { values, body } => {
            list_walked(functions, scope, values.as_slice(), walk)?;
            walk.skip(1);
            branch_walked(alloc, functions, scope, body, walk)
        }
        VCaseItem::Default(body) => {
            walk.skip(2);
            branch_walked(alloc, functions, scope, body, walk)
        }
    }
}

// Items of a `case`.
#[cycle(statement)]
fn cases_walked(
    alloc: Global,
    functions: &Functions,
    scope: &mut Scope,
    cases: &[VCaseItem],
    walk: &mut Walk,
) -> Result<(), AllocError>
    ensures tells { OnOk result (walk.new ≡ means.each_walked (means.walks_of (map means.case_walked cases.now)) (numbers_in functions.now) (found scope.old) walk.old) }
    ensures keeps { OnOk result (found scope.new ≡ found scope.old) }
    ensures hides { OnOk result (hidden_in scope.new ≡ hidden_in scope.old) }
{
    for case in cases {
        case_walked(alloc, functions, scope, case, walk)?;
    }
    Ok(())
}

// A branch: see `stmt_walked`.
#[cycle(statement)]
fn branch_walked(
    alloc: Global,
    functions: &Functions,
    scope: &mut Scope,
    branch: &VBranch,
    walk: &mut Walk,
) -> Result<(), AllocError>
    ensures tells { OnOk result (walk.new ≡ (means.branch_walked branch.now).walk (numbers_in functions.now) (found scope.old) walk.old) }
    ensures keeps { OnOk result (found scope.new ≡ found scope.old) }
    ensures hides { OnOk result (hidden_in scope.new ≡ hidden_in scope.old) }
{
    match branch {
        VBranch::Statement(stmt) => stmt_walked(alloc, functions, scope, stmt.get(), walk),
        VBranch::Empty => {
            walk.skip(1);
            Ok(())
        }
    }
}

/// Adds the calls in a statement, which begins at the next token. Or want of memory. The scope is as before.
#[cycle(statement)]
pub fn stmt_walked(
    alloc: Global,
    functions: &Functions,
    scope: &mut Scope,
    stmt: &VStmt,
    walk: &mut Walk,
) -> Result<(), AllocError>
    ensures tells { OnOk result (walk.new ≡ (means.stmt_walked stmt.now).walk (numbers_in functions.now) (found scope.old) walk.old) }
    ensures keeps { OnOk result (found scope.new ≡ found scope.old) }
    ensures hides { OnOk result (hidden_in scope.new ≡ hidden_in scope.old) }
{
    match stmt {
        VStmt::Block { label, stmts } => match label {
            None => {
                walk.skip(1);
                stmts_walked(alloc, functions, scope, stmts.as_slice(), walk)?;
                walk.skip(1);
                Ok(())
            }
            Some(label) => block_walked(alloc, functions, scope, label, stmts.as_slice(), walk),
        },
        VStmt::If { on, then, other } => {
            walk.skip(2);
            expr_walked(functions, scope, on, walk)?;
            walk.skip(1);
            branch_walked(alloc, functions, scope, then, walk)?;
            else_walked(alloc, functions, scope, other, walk)
        }
        VStmt::Case {
            kind: _,
            on,
            items: cases,
        } => {
            walk.skip(2);
            expr_walked(functions, scope, on, walk)?;
            walk.skip(1);
            cases_walked(alloc, functions, scope, cases.as_slice(), walk)?;
            walk.skip(1);
            Ok(())
        }
        VStmt::Assign {
            target,
            value,
            later: _,
        } => assignment(functions, scope, target, value, walk),
    }
}
