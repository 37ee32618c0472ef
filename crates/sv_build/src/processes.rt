//! Continuous assignments and processes.

ghost use Rattle.std.specs.Prelude.{◌≡◌, IfOk};
ghost use Rattle.sv_build.specs.Items as means;

use crate::lvalues::lvalue;
use crate::rows;
use crate::statements::statement;
use crate::words::edge_keyword;
use expr_build::{Piece, expression, is_blank, kid, kids, pieces, row, token};
use ll_engine::Tree;
use pairs::both;
use std::alloc::{AllocError, Global};
use sv_tree::{Always, ContinuousAssign, EventControl, EventEdge, EventMember, NetAssignment};

/// Assignments of a continuous assignment.
struct NetAssignmentPiece;

impl Piece for NetAssignmentPiece {
    ghost use Rattle.sv_build.specs.Items.{net_assignment_of};

    type Value = NetAssignment;

    ghost value = { net_assignment_of };

    fn piece(alloc: Global, tree: &Tree) -> Result<NetAssignment, AllocError> {
        let target = lvalue(alloc, kid(tree, 0));
        let (target, value) = both(target, expression(alloc, kid(tree, 2)))?;
        Ok(NetAssignment {
            target,
            equals: token(tree, 1),
            value,
        })
    }
}

/// Continuous assignments.
pub fn assign(alloc: Global, tree: &Tree) -> Result<ContinuousAssign, AllocError>
    ensures { IfOk result (λ a. a ≡ means.assign_of tree.now) }
{
    let assignments = pieces::<NetAssignmentPiece>(alloc, kids(kid(tree, 1)))?;
    Ok(ContinuousAssign {
        keyword: token(tree, 0),
        assignments,
        semicolon: token(tree, 2),
    })
}

/// The member behind an event's name, where it is written.
fn event_member(tree: &Tree) -> Option<EventMember>
    ensures { result ≡ means.event_member_of tree.now }
{
    if is_blank(tree) {
        return None;
    }
    Some(EventMember {
        dot: token(tree, 0),
        name: token(tree, 1),
    })
}

/// Edges.
struct EdgePiece;

impl Piece for EdgePiece {
    ghost use Rattle.sv_build.specs.Items.{edge_of};

    type Value = EventEdge;

    ghost value = { edge_of };

    fn piece(_alloc: Global, tree: &Tree) -> Result<EventEdge, AllocError> {
        Ok(EventEdge {
            keyword: edge_keyword(kid(tree, 0)),
            name: token(tree, 1),
            member: event_member(kid(tree, 2)),
        })
    }
}

/// What an `always` waits for, behind its `(`.
fn parenthesized_event(alloc: Global, opening: u32, tree: &Tree) -> Result<EventControl, AllocError>
    ensures { IfOk result (λ e. e ≡ means.parenthesized_event opening tree.now) }
{
    match row(tree) {
        rows::SPACED_STAR => Ok(EventControl::SpacedStar {
            opening,
            star: token(tree, 0),
            closing: token(tree, 1),
        }),
        rows::CLOSING_STAR => Ok(EventControl::ClosingStar {
            opening,
            mark: token(tree, 0),
        }),
        _ => {
            let edges = pieces::<EdgePiece>(alloc, kids(kid(tree, 0)))?;
            Ok(EventControl::Edges {
                opening,
                edges,
                closing: token(tree, 1),
            })
        }
    }
}

/// What an `always` waits for.
fn event(alloc: Global, tree: &Tree) -> Result<EventControl, AllocError>
    ensures { IfOk result (λ e. e ≡ means.event_of tree.now) }
{
    match row(tree) {
        rows::STAR => Ok(EventControl::Star {
            star: token(tree, 0),
        }),
        rows::PARENTHESIZED_STAR => Ok(EventControl::ParenthesizedStar {
            mark: token(tree, 0),
        }),
        rows::OPENING_STAR => Ok(EventControl::OpeningStar {
            mark: token(tree, 0),
            closing: token(tree, 1),
        }),
        _ => parenthesized_event(alloc, token(tree, 0), kid(tree, 1)),
    }
}

/// A process with edges.
fn always_ff(alloc: Global, tree: &Tree) -> Result<Always, AllocError>
    ensures { IfOk result (λ a. a ≡ means.always_ff_of tree.now) }
{
    let edges = pieces::<EdgePiece>(alloc, kids(kid(tree, 3)));
    let (edges, body) = both(edges, statement(alloc, kid(tree, 5)))?;
    Ok(Always::Ff {
        keyword: token(tree, 0),
        event: token(tree, 1),
        opening: token(tree, 2),
        edges,
        closing: token(tree, 4),
        body,
    })
}

/// A process of the plain kind.
fn always_plain(alloc: Global, tree: &Tree) -> Result<Always, AllocError>
    ensures { IfOk result (λ a. a ≡ means.always_plain_of tree.now) }
{
    let control = event(alloc, kid(tree, 2));
    let (control, body) = both(control, statement(alloc, kid(tree, 3)))?;
    Ok(Always::Plain {
        keyword: token(tree, 0),
        event: token(tree, 1),
        control,
        body,
    })
}

/// A process.
pub fn always(alloc: Global, tree: &Tree) -> Result<Always, AllocError>
    ensures { IfOk result (λ a. a ≡ means.always_of tree.now) }
{
    let keyword = token(tree, 0);
    match row(tree) {
        rows::ALWAYS_COMB => {
            let body = statement(alloc, kid(tree, 1))?;
            Ok(Always::Comb { keyword, body })
        }
        rows::ALWAYS_LATCH => {
            let body = statement(alloc, kid(tree, 1))?;
            Ok(Always::Latch { keyword, body })
        }
        rows::ALWAYS_FF => always_ff(alloc, tree),
        _ => always_plain(alloc, tree),
    }
}
