//! Statements (IEEE 1364-2005 clause 9).

ghost use Rattle.std.specs.Prelude.{◌≡◌, [], Some, None, option_map, map, IfOk};
ghost use Rattle.v_meaning.specs.Statements as means;
ghost use Rattle.v_meaning.specs.Statements.{target, doing, doing_of, or_nothing, block_with, sequence};
ghost use Rattle.v_meaning.specs.Values.{meaning};
ghost use Rattle.v_statements.specs.Trees.{doings, item_of, items_of};

use std::alloc::{AllocError, Global};
use sv_source::{Boxed, Text};
use v_tree::{
    VBranch, VCaseItem, VCaseItems, VCaseKind, VExpr, VExprs, VLabel, VLocals, VLval, VStmt, VStmts,
};

/// `to = value;`, or `to <= value;` where it is made later.
pub fn assignment(to: VLval, value: VExpr, later: bool) -> VStmt
    ensures { doing result ≡ means.assignment later (target to) (meaning value) }
{
    VStmt::Assign {
        target: to,
        value,
        later,
    }
}

/// A statement as what an `if`, an item of a `case` or an `always` governs.
pub fn body(alloc: Global, s: VStmt) -> Result<VBranch, AllocError>
    ensures { IfOk result (λ b. doing_of b ≡ doing s) }
{
    Ok(VBranch::Statement(Boxed::new(alloc, s)?))
}

/// `;`
pub fn empty() -> VBranch
    ensures { doing_of result ≡ means.nothing }
{
    VBranch::Empty
}

/// `if (on) then`, and perhaps `else other`. An `else` belongs to the nearest `if` before it, so what stands before one is a
/// block where it ends in an `if` without one.
pub fn conditional(on: VExpr, then: VBranch, other: Option<VBranch>) -> VStmt
    ensures { doing result ≡ means.conditional (meaning on) (doing_of then) (or_nothing (option_map doing_of other)) }
{
    VStmt::If { on, then, other }
}

/// `begin stmts end`
pub fn block(stmts: VStmts) -> VStmt
    ensures { doing result ≡ block_with [] (sequence (doings stmts)) }
{
    VStmt::Block { label: None, stmts }
}

/// `begin : name locals stmts end`
pub fn named_block(name: Text, locals: VLocals, stmts: VStmts) -> VStmt
    ensures { doing result ≡ block_with locals (sequence (doings stmts)) }
{
    VStmt::Block {
        label: Some(VLabel { name, locals }),
        stmts,
    }
}

/// `values: body`, with at least one value.
pub fn item(values: VExprs, body: VBranch) -> VCaseItem
    ensures { item_of result ≡ record { values = Some (map meaning values); body = doing_of body } }
{
    VCaseItem::Item { values, body }
}

/// `default: body`
pub fn default_item(body: VBranch) -> VCaseItem
    ensures { item_of result ≡ record { values = None; body = doing_of body } }
{
    VCaseItem::Default(body)
}

/// `case (on) items endcase`, `casez` or `casex`, with at least one item, and at most one `default`.
pub fn cases(kind: VCaseKind, on: VExpr, items: VCaseItems) -> VStmt
    ensures { doing result ≡ means.cases kind (meaning on) (items_of items) }
{
    VStmt::Case { kind, on, items }
}
