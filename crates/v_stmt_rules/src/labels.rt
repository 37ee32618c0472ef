//! The names of the blocks that a statement declares in the scope around it.

ghost use Rattle.std.specs.Prelude.{◌≡◌, map, OnOk};
ghost use Rattle.v_stmt_rules.specs.Labels.{in_turn, else_labels};
ghost use Rattle.v_stmt_rules.specs.Stmts as means;

use std::alloc::{AllocError, Global};
use v_tree::{Texts, VBranch, VCaseItem, VStmt};

// The blocks of an `else`.
#[cycle(labels)]
fn else_labels(alloc: Global, other: &Option<VBranch>, to: &mut Texts) -> Result<(), AllocError>
    ensures { OnOk result (to.new ≡ else_labels (means.labels_if other.now) to.old) }
{
    match other {
        None => Ok(()),
        Some(branch) => branch_labels(alloc, branch, to),
    }
}

// The blocks of an item of a `case`.
#[cycle(labels)]
fn item_labels(alloc: Global, item: &VCaseItem, to: &mut Texts) -> Result<(), AllocError>
    ensures { OnOk result (to.new ≡ (means.item_told item.now).labels to.old) }
{
    match item {
        VCaseItem::Item { values: _, body } => branch_labels(alloc, body, to),
        VCaseItem::Default(body) => branch_labels(alloc, body, to),
    }
}

// The blocks of the items of a `case`.
#[cycle(labels)]
fn items_labels(alloc: Global, items: &[VCaseItem], to: &mut Texts) -> Result<(), AllocError>
    ensures { OnOk result (to.new ≡ in_turn (means.item_labels (map means.item_told items.now)) to.old) }
{
    for item in items {
        item_labels(alloc, item, to)?;
    }
    Ok(())
}

/// Adds the names of the blocks of statements. Or want of memory.
#[cycle(labels)]
pub(crate) fn stmts_labels(alloc: Global, stmts: &[VStmt], to: &mut Texts) -> Result<(), AllocError>
    ensures { OnOk result (to.new ≡ in_turn (means.stmt_labels (map means.stmt_told stmts.now)) to.old) }
{
    for stmt in stmts {
        stmt_labels(alloc, stmt, to)?;
    }
    Ok(())
}

/// Adds the names of the blocks of a branch. Or want of memory.
#[cycle(labels)]
pub fn branch_labels(alloc: Global, branch: &VBranch, to: &mut Texts) -> Result<(), AllocError>
    ensures { OnOk result (to.new ≡ (means.branch_told branch.now).labels to.old) }
{
    match branch {
        VBranch::Statement(stmt) => stmt_labels(alloc, stmt.get(), to),
        VBranch::Empty => Ok(()),
    }
}

/// Adds the names of the blocks that a statement declares in the scope around it: its own, or those in it that stand in no
/// named block. Or want of memory.
#[cycle(labels)]
pub fn stmt_labels(alloc: Global, stmt: &VStmt, to: &mut Texts) -> Result<(), AllocError>
    ensures { OnOk result (to.new ≡ (means.stmt_told stmt.now).labels to.old) }
{
    match stmt {
        VStmt::Block { label, stmts } => match label {
            None => stmts_labels(alloc, stmts.as_slice(), to),
            Some(label) => to.push(label.name.copy(alloc)?),
        },
        VStmt::If { on: _, then, other } => {
            branch_labels(alloc, then, to)?;
            else_labels(alloc, other, to)
        }
        VStmt::Case {
            kind: _,
            on: _,
            items,
        } => items_labels(alloc, items.as_slice(), to),
        VStmt::Assign {
            target: _,
            value: _,
            later: _,
        } => Ok(()),
    }
}
