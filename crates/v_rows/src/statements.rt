//! What the rows of events, connections and statements mean by what their parts mean (IEEE 1364-2005 A.6).
#![tactic(auto, using(crate::proofs::KeptStatements::kept))]

ghost use Rattle.std.specs.Prelude.{◌≡◌, true, false, IfOk};
ghost use Rattle.v_tree.specs.Meaning as means;

use std::alloc::{AllocError, Global};
use sv_source::{Boxed, Items};
use v_parts::{all, first, kinds};
use v_tree::{
    VBranch, VCaseItem, VConnection, VEdge, VExpr, VLabel, VPart, VParts, VSensitivity, VStmt,
};

/// Edges, or want of memory.
pub fn edges(alloc: Global, parts: VParts) -> Result<VPart, AllocError>
    ensures { IfOk result (λ part. part ≡ means.edges_of parts) }
{
    let edges = all::<kinds::Edge>(alloc, parts)?;
    Ok(VPart::Event(VSensitivity::Edges(edges)))
}

/// An edge.
pub fn edge(rising: bool, mut parts: VParts) -> VPart
    ensures { result ≡ means.edge_of rising parts }
{
    match first::<kinds::Name>(&mut parts) {
        Some(name) => VPart::Edge(VEdge { rising, name }),
        None => VPart::Nothing,
    }
}

/// The connections of an instance, or want of memory.
pub fn connections(alloc: Global, parts: VParts) -> Result<VPart, AllocError>
    ensures { IfOk result (λ part. part ≡ means.connections_of parts) }
{
    let connections = all::<kinds::Connection>(alloc, parts)?;
    Ok(VPart::Connections(connections))
}

/// A connection.
pub fn connection(mut parts: VParts) -> VPart
    ensures { result ≡ means.connection_of parts }
{
    let Some(port) = first::<kinds::Name>(&mut parts) else {
        return VPart::Nothing;
    };
    let value = first::<kinds::Expr>(&mut parts);
    VPart::Connection(VConnection { port, value })
}

/// A statement that another one governs, or want of memory.
pub fn branch(alloc: Global, mut parts: VParts) -> Result<VPart, AllocError>
    ensures { IfOk result (λ part. part ≡ means.branch_of parts) }
{
    let Some(statement) = first::<kinds::Stmt>(&mut parts) else {
        return Ok(VPart::Nothing);
    };
    let statement = Boxed::new(alloc, statement)?;
    Ok(VPart::Branch(VBranch::Statement(statement)))
}

/// `begin .. end`, or want of memory.
pub fn block(alloc: Global, mut parts: VParts) -> Result<VPart, AllocError>
    ensures { IfOk result (λ part. part ≡ means.block_of parts) }
{
    let label = first::<kinds::Label>(&mut parts);
    let stmts = all::<kinds::Stmt>(alloc, parts)?;
    Ok(VPart::Stmt(VStmt::Block { label, stmts }))
}

/// Drops an expression.
fn discard(_value: VExpr) {}

/// `if (on) then`, and perhaps `else other`.
pub fn if_statement(mut parts: VParts) -> VPart
    ensures { result ≡ means.if_of parts }
{
    let Some(on) = first::<kinds::Expr>(&mut parts) else {
        return VPart::Nothing;
    };
    let Some(then) = first::<kinds::Branch>(&mut parts) else {
        discard(on);
        return VPart::Nothing;
    };
    let other = first::<kinds::Else>(&mut parts);
    VPart::Stmt(VStmt::If { on, then, other })
}

/// `case (on) items endcase`
pub fn case_statement(mut parts: VParts) -> VPart
    ensures { result ≡ means.case_of parts }
{
    let Some(kind) = first::<kinds::CaseKind>(&mut parts) else {
        return VPart::Nothing;
    };
    let Some(on) = first::<kinds::Expr>(&mut parts) else {
        return VPart::Nothing;
    };
    let Some(items) = first::<kinds::CaseItems>(&mut parts) else {
        discard(on);
        return VPart::Nothing;
    };
    VPart::Stmt(VStmt::Case { kind, on, items })
}

/// An assignment.
pub fn store(mut parts: VParts) -> VPart
    ensures { result ≡ means.store_of parts }
{
    let Some(target) = first::<kinds::Lval>(&mut parts) else {
        return VPart::Nothing;
    };
    let Some(later) = first::<kinds::Later>(&mut parts) else {
        return VPart::Nothing;
    };
    let Some(value) = first::<kinds::Expr>(&mut parts) else {
        return VPart::Nothing;
    };
    VPart::Stmt(VStmt::Assign {
        target,
        value,
        later,
    })
}

/// The name of a block with its variables, or want of memory.
pub fn label(alloc: Global, mut parts: VParts) -> Result<VPart, AllocError>
    ensures { IfOk result (λ part. part ≡ means.label_of parts) }
{
    let Some(name) = first::<kinds::Name>(&mut parts) else {
        return Ok(VPart::Nothing);
    };
    let locals = all::<kinds::Local>(alloc, parts)?;
    Ok(VPart::Label(VLabel { name, locals }))
}

/// What stands behind an `else`.
pub fn else_branch(mut parts: VParts) -> VPart
    ensures { result ≡ means.else_of parts }
{
    match first::<kinds::Branch>(&mut parts) {
        Some(branch) => VPart::Else(branch),
        None => VPart::Nothing,
    }
}

/// The items of a `case`, or want of memory.
pub fn case_items(alloc: Global, mut parts: VParts) -> Result<VPart, AllocError>
    ensures { IfOk result (λ part. part ≡ means.case_items_of parts) }
{
    let behind = match first::<kinds::CaseItems>(&mut parts) {
        Some(behind) => behind,
        None => Items::new(alloc),
    };
    let mut items = all::<kinds::CaseItem>(alloc, parts)?;
    items.append(behind)?;
    Ok(VPart::CaseItems(items))
}

/// An item of a `case`, or want of memory.
pub fn case_item(alloc: Global, mut parts: VParts) -> Result<VPart, AllocError>
    ensures { IfOk result (λ part. part ≡ means.case_item_of parts) }
{
    let Some(body) = first::<kinds::Branch>(&mut parts) else {
        return Ok(VPart::Nothing);
    };
    let values = all::<kinds::Expr>(alloc, parts)?;
    Ok(VPart::CaseItem(VCaseItem::Item { values, body }))
}

/// The item of a `case` with `default`.
pub fn default_item(mut parts: VParts) -> VPart
    ensures { result ≡ means.default_of parts }
{
    match first::<kinds::Branch>(&mut parts) {
        Some(body) => VPart::CaseItem(VCaseItem::Default(body)),
        None => VPart::Nothing,
    }
}
