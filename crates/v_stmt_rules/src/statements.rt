//! The walk over a statement (IEEE 1364-2005 clause 9).

ghost use Rattle.std.specs.Prelude.{◌≡◌, map, IfOk, OnOk};
ghost use Rattle.v_tree.specs.StmtRules.{mark_breaks};
ghost use Rattle.v_scopes.specs.Env.{found, hidden_in, Within};
ghost use Rattle.v_expr_rules.specs.Seen.{plus};
ghost use Rattle.v_expr_rules.specs.Walks.{expr_seen};
ghost use Rattle.v_stmt_rules.specs.Targets.{target_seen};
ghost use Rattle.v_stmt_rules.specs.Stmts as means;

use crate::cases::{
    CaseSeen, case_added, case_item, case_seen, default_item, no_cases, values_seen,
};
use crate::labels::stmts_labels;
use crate::locals::{local_met, locals_seen};
use crate::targets::{Procedure, TargetSeen, assigned, mark_breaks, target_seen};
use std::alloc::{AllocError, Global};
use v_block_names::{declare_locals, declare_parts};
use v_expr_rules::{Seen, alone, earlier, expr_seen, mark, plus};
use v_scopes::Scope;
use v_tree::{Texts, VBranch, VCaseItem, VExpr, VItem, VLabel, VLval, VStmt};

/// What is kept of a statement.
#[derive(Clone, Copy, Drop)]
pub struct StmtSeen {
    /// How many tokens it has.
    pub size: u32,
    /// The first token that breaks a rule.
    pub first: Option<u32>,
}

/// No statements.
pub(crate) fn no_stmts() -> StmtSeen
    ensures { result ≡ means.no_stmts }
{
    StmtSeen {
        size: 0,
        first: None,
    }
}

fn stmt_added(list: StmtSeen, stmt: StmtSeen) -> StmtSeen
    ensures { result ≡ means.stmt_added list stmt }
{
    StmtSeen {
        size: plus(list.size, stmt.size),
        first: earlier(list.first, stmt.first),
    }
}

fn begin_end(list: StmtSeen) -> StmtSeen
    ensures { result ≡ means.begin_end list }
{
    StmtSeen {
        size: plus(2, list.size),
        first: list.first,
    }
}

fn named_block(name: Option<u32>, locals: StmtSeen, body: StmtSeen) -> StmtSeen
    ensures { result ≡ means.named_block name locals body }
{
    StmtSeen {
        size: plus(4, plus(locals.size, body.size)),
        first: earlier(name, earlier(locals.first, body.first)),
    }
}

fn if_seen(test: Seen, taken: StmtSeen, other: StmtSeen) -> StmtSeen
    ensures { result ≡ means.if_seen test taken other }
{
    StmtSeen {
        size: plus(3, plus(test.size, plus(taken.size, other.size))),
        first: earlier(alone(test), earlier(taken.first, other.first)),
    }
}

fn assign_seen(
    procedure: Procedure,
    target: TargetSeen,
    value: Seen,
    later: bool,
    at: u32,
) -> StmtSeen
    ensures { result ≡ means.assign_seen procedure target value later at }
{
    let mark_first = mark(
        mark_breaks(procedure, later, target.has_signal),
        plus(at, target.size),
    );
    StmtSeen {
        size: plus(target.size, plus(2, value.size)),
        first: earlier(
            target.broken,
            earlier(
                target.by_procedure,
                earlier(mark_first, assigned(target, value)),
            ),
        ),
    }
}

// An assignment, which begins at a token.
fn assignment(
    scope: &Scope,
    items: &[VItem],
    procedure: Procedure,
    target: &VLval,
    value: &VExpr,
    later: bool,
    at: u32,
) -> StmtSeen
    ensures { result ≡ means.assign_seen procedure (target_seen target.now (found scope.now) items.now at) (expr_seen value.now (found scope.now) items.now (plus at (plus 1 (target_seen target.now (found scope.now) items.now at).size))) later at }
{
    let target = target_seen(scope, items, target, at);
    let value = expr_seen(scope, items, value, plus(at, plus(1, target.size)));
    assign_seen(procedure, target, value, later, at)
}

/// Declares the variables of a named block and the blocks of its statements. Or want of memory.
pub fn enter_block(
    alloc: Global,
    scope: &mut Scope,
    label: &VLabel,
    stmts: &[VStmt],
) -> Result<(), AllocError>
    ensures declares { OnOk result (found scope.new ≡ means.block_given label.now.locals (means.stmt_labels (map means.stmt_told stmts.now)) (found scope.old)) }
    ensures within { OnOk result (Within scope.old scope.new) }
{
    let mut names = Texts::new(alloc);
    stmts_labels(alloc, stmts, &mut names)?;
    declare_parts(alloc, scope, names.as_slice())?;
    declare_locals(alloc, scope, label.locals.as_slice())?;
    Ok(())
}

// A named block, which begins at a token.
#[cycle(statement)]
fn block_seen(
    alloc: Global,
    scope: &mut Scope,
    items: &[VItem],
    procedure: Procedure,
    label: &VLabel,
    stmts: &[VStmt],
    at: u32,
    met: &mut Scope,
) -> Result<StmtSeen, AllocError>
    ensures tells { means.Tells result (found met.new) (means.block_walk label.now (map means.stmt_told stmts.now) procedure (found scope.old) items.now at (found met.old)) }
    ensures keeps { OnOk result (found scope.new ≡ found scope.old) }
    ensures hides { OnOk result (hidden_in scope.new ≡ hidden_in scope.old) }
{
    let name = mark(local_met(alloc, met, &label.name)?, plus(at, 2));
    let outside = scope.mark();
    enter_block(alloc, scope, label, stmts)?;
    let mut inner = Scope::new(alloc);
    let locals = locals_seen(
        alloc,
        &mut inner,
        label.locals.as_slice(),
        plus(at, 3),
        no_stmts(),
    )?;
    let from = plus(at, plus(3, locals.size));
    let body = stmts_seen(alloc, scope, items, procedure, stmts, from, &mut inner)?;
    scope.leave(outside)?;
    Ok(named_block(name, locals, body))
}

// Statements, of which the first one begins at a token.
#[cycle(statement)]
fn stmts_seen(
    alloc: Global,
    scope: &mut Scope,
    items: &[VItem],
    procedure: Procedure,
    stmts: &[VStmt],
    start: u32,
    met: &mut Scope,
) -> Result<StmtSeen, AllocError>
    ensures tells { means.Tells result (found met.new) (means.stmts_from (map means.stmt_told stmts.now) procedure (found scope.old) items.now start (means.begun (found met.old))) }
    ensures keeps { OnOk result (found scope.new ≡ found scope.old) }
    ensures hides { OnOk result (hidden_in scope.new ≡ hidden_in scope.old) }
{
    let mut seen = no_stmts();
    for stmt in stmts {
        let at = plus(start, seen.size);
        let one = stmt_seen(alloc, scope, items, procedure, stmt, at, met)?;
        seen = stmt_added(seen, one);
    }
    Ok(seen)
}

// An `else`, which begins at a token, or none.
#[cycle(statement)]
fn else_seen(
    alloc: Global,
    scope: &mut Scope,
    items: &[VItem],
    procedure: Procedure,
    other: &Option<VBranch>,
    at: u32,
    met: &mut Scope,
) -> Result<StmtSeen, AllocError>
    ensures tells { means.Tells result (found met.new) (means.else_walk (means.branch_if other.now) procedure (found scope.old) items.now at (found met.old)) }
    ensures keeps { OnOk result (found scope.new ≡ found scope.old) }
    ensures hides { OnOk result (hidden_in scope.new ≡ hidden_in scope.old) }
{
    match other {
        None => Ok(no_stmts()),
        Some(branch) => {
            let one = branch_seen(alloc, scope, items, procedure, branch, plus(at, 1), met)?;
            Ok(StmtSeen {
                size: plus(1, one.size),
                first: one.first,
            })
        }
    }
}

// An item of a `case`, which begins at a token.
#[cycle(statement)]
fn item_seen(
    alloc: Global,
    scope: &mut Scope,
    items: &[VItem],
    procedure: Procedure,
    item: &VCaseItem,
    at: u32,
    met: &mut Scope,
) -> Result<CaseSeen, AllocError>
    ensures tells { means.CaseTells result (found met.new) ((means.item_told item.now).walk procedure (found scope.old) items.now at (found met.old)) }
    ensures keeps { OnOk result (found scope.new ≡ found scope.old) }
    ensures hides { OnOk result (hidden_in scope.new ≡ hidden_in scope.old) }
{
    match item {
        VCaseItem::Item { values, body } => {
            let values = values_seen(scope, items, values.as_slice(), at);
            let from = plus(at, plus(1, values.size));
            let one = branch_seen(alloc, scope, items, procedure, body, from, met)?;
            Ok(case_item(values, one))
        }
        VCaseItem::Default(body) => {
            let one = branch_seen(alloc, scope, items, procedure, body, plus(at, 2), met)?;
            Ok(default_item(one))
        }
    }
}

// Items of a `case`, of which the first one begins at a token.
#[cycle(statement)]
fn items_seen(
    alloc: Global,
    scope: &mut Scope,
    items: &[VItem],
    procedure: Procedure,
    cases: &[VCaseItem],
    start: u32,
    met: &mut Scope,
) -> Result<CaseSeen, AllocError>
    ensures tells { means.CaseTells result (found met.new) (means.cases_from (map means.item_told cases.now) procedure (found scope.old) items.now start (record { seen = means.no_cases; met = found met.old })) }
    ensures keeps { OnOk result (found scope.new ≡ found scope.old) }
    ensures hides { OnOk result (hidden_in scope.new ≡ hidden_in scope.old) }
{
    let mut seen = no_cases();
    for case in cases {
        let at = plus(start, seen.size);
        let one = item_seen(alloc, scope, items, procedure, case, at, met)?;
        seen = case_added(seen, one);
    }
    Ok(seen)
}

/// What is kept of a branch that begins at a token: see `stmt_seen`.
#[cycle(statement)]
pub fn branch_seen(
    alloc: Global,
    scope: &mut Scope,
    items: &[VItem],
    procedure: Procedure,
    branch: &VBranch,
    at: u32,
    met: &mut Scope,
) -> Result<StmtSeen, AllocError>
    ensures tells { means.Tells result (found met.new) ((means.branch_told branch.now).walk procedure (found scope.old) items.now at (found met.old)) }
    ensures keeps { OnOk result (found scope.new ≡ found scope.old) }
    ensures hides { OnOk result (hidden_in scope.new ≡ hidden_in scope.old) }
{
    match branch {
        VBranch::Statement(stmt) => {
            stmt_seen(alloc, scope, items, procedure, stmt.get(), at, met)
        }
        VBranch::Empty => Ok(StmtSeen {
            size: 1,
            first: None,
        }),
    }
}

/// What is kept of a statement that begins at a token, in a procedure of a module of these items, where names stand for these
/// things and these ones of its scope were met before. Or want of memory. The scope is as before.
#[cycle(statement)]
pub fn stmt_seen(
    alloc: Global,
    scope: &mut Scope,
    items: &[VItem],
    procedure: Procedure,
    stmt: &VStmt,
    at: u32,
    met: &mut Scope,
) -> Result<StmtSeen, AllocError>
    ensures tells { means.Tells result (found met.new) ((means.stmt_told stmt.now).walk procedure (found scope.old) items.now at (found met.old)) }
    ensures keeps { OnOk result (found scope.new ≡ found scope.old) }
    ensures hides { OnOk result (hidden_in scope.new ≡ hidden_in scope.old) }
{
    match stmt {
        VStmt::Block { label, stmts } => match label {
            None => {
                let from = plus(at, 1);
                let body = stmts_seen(alloc, scope, items, procedure, stmts.as_slice(), from, met)?;
                Ok(begin_end(body))
            }
            Some(label) => block_seen(
                alloc,
                scope,
                items,
                procedure,
                label,
                stmts.as_slice(),
                at,
                met,
            ),
        },
        VStmt::If { on, then, other } => {
            let test = expr_seen(scope, items, on, plus(at, 2));
            let from = plus(at, plus(3, test.size));
            let taken = branch_seen(alloc, scope, items, procedure, then, from, met)?;
            let behind = plus(at, plus(3, plus(test.size, taken.size)));
            let other = else_seen(alloc, scope, items, procedure, other, behind, met)?;
            Ok(if_seen(test, taken, other))
        }
        VStmt::Case {
            kind: _,
            on,
            items: cases,
        } => {
            let test = expr_seen(scope, items, on, plus(at, 2));
            let from = plus(at, plus(3, test.size));
            let list = items_seen(alloc, scope, items, procedure, cases.as_slice(), from, met)?;
            Ok(case_seen(test, list))
        }
        VStmt::Assign {
            target,
            value,
            later,
        } => Ok(assignment(scope, items, procedure, target, value, *later, at)),
    }
}
