//! Initial values and processes (IEEE 1364-2005 clauses 6.1, 9.2 and 9.7).

ghost use Rattle.std.specs.Prelude.{◌≡◌, ◌∷◌, OnOk, IfOk, length};
ghost use Rattle.v_scopes.specs.Env.{found, hidden_in};
ghost use Rattle.v_stmt_rules.specs.Stmts.{Tells};
ghost use Rattle.v_item_rules.specs.Processes as means;

use std::alloc::{AllocError, Global};
use v_expr_rules::{bits_of, earlier, expr_seen, mark, plus};
use v_scopes::{Entry, Kind, Scope};
use v_stmt_rules::{Procedure, StmtSeen, assign_first, branch_seen, target_seen};
use v_tree::{VBranch, VEdge, VExpr, VItem, VLval, VProcess, VSensitivity};

// The value of a variable of the module has its width.
fn variable_first(kind: Kind, left: Option<u32>, bits: usize, at: u32) -> Option<u32>
    ensures { result ≡ means.variable_first kind left bits at }
{
    match kind {
        Kind::Input => Some(plus(at, 1)),
        Kind::Net => Some(plus(at, 1)),
        Kind::Variable => mark(bits_of(left) != bits as u64, plus(at, 3)),
        Kind::Local => Some(plus(at, 1)),
    }
}

/// The first token of an `initial` that breaks a rule, where it begins at a token, by what its name stands for and the width of
/// its value.
pub fn initial_first(entry: Option<Entry>, bits: usize, at: u32) -> Option<u32>
    ensures { result ≡ means.initial_first entry bits at }
{
    match entry {
        None => Some(plus(at, 1)),
        Some(Entry::Value { kind, left }) => variable_first(kind, left, bits, at),
        Some(Entry::Memory { left: _ }) => Some(plus(at, 1)),
        Some(Entry::Function { left: _, item: _ }) => Some(plus(at, 1)),
        Some(Entry::Result { left: _, item: _ }) => Some(plus(at, 1)),
        Some(Entry::Part) => Some(plus(at, 1)),
    }
}

// Whether a name stands for a value of one bit.
fn is_one_bit(entry: Option<Entry>) -> bool
    ensures { result ≡ means.is_one_bit entry }
{
    match entry {
        None => false,
        Some(Entry::Value { kind: _, left }) => bits_of(left) == 1,
        Some(Entry::Memory { left: _ }) => false,
        Some(Entry::Function { left: _, item: _ }) => false,
        Some(Entry::Result { left: _, item: _ }) => false,
        Some(Entry::Part) => false,
    }
}

// What is kept of edges and one more, whose name has a token.
fn edge_added(edges: StmtSeen, token: u32, one_bit: bool) -> StmtSeen
    ensures { result ≡ means.edge_added edges token one_bit }
{
    StmtSeen {
        size: plus(edges.size, 3),
        first: earlier(edges.first, mark(!one_bit, token)),
    }
}

// Edges, where the name of the first one has a token.
fn edges_seen(scope: &Scope, edges: &[VEdge], start: u32) -> StmtSeen
    ensures { result ≡ means.edges_from edges.now (found scope.now) start means.no_edges }
{
    let mut seen = StmtSeen {
        size: 0,
        first: None,
    };
    for edge in edges {
        let token = plus(start, seen.size);
        seen = edge_added(seen, token, is_one_bit(scope.find(&edge.name)));
    }
    seen
}

// A continuous assignment, which begins at a token.
fn assign_seen(scope: &Scope, items: &[VItem], target: &VLval, value: &VExpr, at: u32) -> StmtSeen
    ensures { result ≡ means.assign_seen target.now value.now (found scope.now) items.now at }
{
    let target = target_seen(scope, items, target, plus(at, 1));
    let value = expr_seen(scope, items, value, plus(at, plus(2, target.size)));
    StmtSeen {
        size: plus(3, plus(target.size, value.size)),
        first: assign_first(target, value),
    }
}

fn always_seen(edges: StmtSeen, body: StmtSeen) -> StmtSeen
    ensures { result ≡ means.always_seen edges body }
{
    StmtSeen {
        size: plus(2, plus(edges.size, body.size)),
        first: earlier(edges.first, body.first),
    }
}

// What a process waits for, with its parentheses, and how it assigns.
fn event_seen(scope: &Scope, on: &VSensitivity, at: u32) -> (StmtSeen, Procedure)
    ensures { result ≡ means.event_seen on.now (found scope.now) at }
{
    match on {
        VSensitivity::Star => (
            StmtSeen {
                size: 1,
                first: None,
            },
            Procedure::AtStar,
        ),
        VSensitivity::Edges(edges) => {
            let seen = edges_seen(scope, edges.as_slice(), plus(at, 4));
            (
                StmtSeen {
                    size: plus(1, seen.size),
                    first: seen.first,
                },
                Procedure::AtEdges,
            )
        }
    }
}

// A process that waits, which begins at a token.
fn waiting_seen(
    alloc: Global,
    scope: &mut Scope,
    items: &[VItem],
    on: &VSensitivity,
    body: &VBranch,
    at: u32,
    met: &mut Scope,
) -> Result<StmtSeen, AllocError>
    ensures tells { Tells result (found met.new) (means.waiting_told on.now body.now (found scope.old) items.now at (found met.old)) }
    ensures keeps { OnOk result (found scope.new ≡ found scope.old) }
    ensures hides { OnOk result (hidden_in scope.new ≡ hidden_in scope.old) }
{
    let (event, procedure) = event_seen(scope, on, at);
    let from = plus(at, plus(2, event.size));
    let body = branch_seen(alloc, scope, items, procedure, body, from, met)?;
    Ok(always_seen(event, body))
}

/// What is kept of a process that begins at a token, in a module of these items, where names stand for these things and these
/// ones of the module were met before. Or want of memory. The scope is as before.
pub fn process_seen(
    alloc: Global,
    scope: &mut Scope,
    items: &[VItem],
    process: &VProcess,
    at: u32,
    met: &mut Scope,
) -> Result<StmtSeen, AllocError>
    ensures tells { Tells result (found met.new) (means.process_told process.now (found scope.old) items.now at (found met.old)) }
    ensures keeps { OnOk result (found scope.new ≡ found scope.old) }
    ensures hides { OnOk result (hidden_in scope.new ≡ hidden_in scope.old) }
{
    match process {
        VProcess::Assign { target, value } => Ok(assign_seen(scope, items, target, value, at)),
        VProcess::Always { on, body } => waiting_seen(alloc, scope, items, on, body, at, met),
    }
}
