//! Instances of modules (IEEE 1364-2005 clauses 12.1.2 and 12.3.6).

ghost use Rattle.std.specs.Prelude.{◌≡◌, OnOk};
ghost use Rattle.v_scopes.specs.Env.{found};
ghost use Rattle.v_stmt_rules.specs.Stmts.{Tells};
ghost use Rattle.v_item_rules.specs.Instances as means;
ghost use Rattle.v_item_rules.specs.Functions.{Gives};

use std::alloc::{AllocError, Global};
use v_expr_rules::{Seen, alone, bits_of, earlier, expr_seen, in_context, is_wide, mark, plus};
use v_scopes::{Entry, Kind, Scope};
use v_stmt_rules::{StmtSeen, local_met};
use v_tree::{VConnection, VExpr, VInstance, VItem};

// What an output is connected to.
fn driven_first(value: Seen, at: u32) -> Option<u32>
    ensures { result ≡ means.driven_first value at }
{
    if value.is_target {
        earlier(alone(value), value.driven)
    } else {
        earlier(alone(value), Some(at))
    }
}

// What a port of this kind and range is connected to: a value that begins at a token.
fn value_first(kind: Kind, left: Option<u32>, value: Seen, at: u32) -> Option<u32>
    ensures { result ≡ means.value_first kind left value at }
{
    match kind {
        Kind::Input => in_context(value, 128 < bits_of(left) || is_wide(value.width)),
        Kind::Net => driven_first(value, at),
        Kind::Variable => driven_first(value, at),
        Kind::Local => driven_first(value, at),
    }
}

// What a port is connected to, by what the port is.
fn port_first(port: Option<Entry>, value: Seen, at: u32) -> Option<u32>
    ensures { result ≡ means.port_first port value at }
{
    match port {
        Some(Entry::Value { kind, left }) => value_first(kind, left, value, plus(at, 3)),
        Some(Entry::Memory { left: _ }) => Some(plus(at, 1)),
        Some(Entry::Function { left: _, item: _ }) => Some(plus(at, 1)),
        Some(Entry::Result { left: _, item: _ }) => Some(plus(at, 1)),
        Some(Entry::Part) => Some(plus(at, 1)),
        None => Some(plus(at, 1)),
    }
}

// Whether a name is a port's.
fn is_port(port: Option<Entry>) -> bool
    ensures { result ≡ means.is_port port }
{
    match port {
        Some(Entry::Value { kind: _, left: _ }) => true,
        Some(Entry::Memory { left: _ }) => false,
        Some(Entry::Function { left: _, item: _ }) => false,
        Some(Entry::Result { left: _, item: _ }) => false,
        Some(Entry::Part) => false,
        None => false,
    }
}

// What is kept of a connection that begins at a token, by what its port is.
fn connected(
    scope: &Scope,
    items: &[VItem],
    port: Option<Entry>,
    value: &Option<VExpr>,
    at: u32,
) -> StmtSeen
    ensures { result ≡ means.connected port value.now (found scope.now) items.now at }
{
    match value {
        None => StmtSeen {
            size: 5,
            first: mark(!is_port(port), plus(at, 1)),
        },
        Some(value) => {
            let seen = expr_seen(scope, items, value, plus(at, 3));
            StmtSeen {
                size: plus(5, seen.size),
                first: port_first(port, seen, at),
            }
        }
    }
}

fn connection_added(list: StmtSeen, again: Option<u32>, one: StmtSeen) -> StmtSeen
    ensures { result ≡ means.connection_added list again one }
{
    StmtSeen {
        size: plus(list.size, one.size),
        first: earlier(list.first, earlier(again, one.first)),
    }
}

/// What is kept of connections, with a comma behind each, of which the first one begins at a token: to these ports, in a module
/// of these items, where names stand for these things and these ports were connected before. Or want of memory.
pub fn connections_seen(
    alloc: Global,
    scope: &Scope,
    items: &[VItem],
    ports: &Scope,
    connections: &[VConnection],
    start: u32,
    met: &mut Scope,
) -> Result<StmtSeen, AllocError>
    ensures { Tells result (found met.new) (means.connections_from connections.now (found ports.now) (found scope.now) items.now start (means.none_connected (found met.old))) }
{
    let mut seen = StmtSeen {
        size: 0,
        first: None,
    };
    for connection in connections {
        let at = plus(start, seen.size);
        let port = ports.find(&connection.port);
        let again = mark(local_met(alloc, met, &connection.port)?, plus(at, 1));
        let one = connected(scope, items, port, &connection.value, at);
        seen = connection_added(seen, again, one);
    }
    Ok(seen)
}

// An instance with its connections, each with a comma.
fn instance_tokens(connections: u32, has_some: bool) -> u32
    ensures { result ≡ means.instance_tokens connections has_some }
{
    if has_some { plus(4, connections) } else { 5 }
}

/// What is kept of an instance of a module with these ports that begins at a token, in a module of these items, where names
/// stand for these things. Or want of memory.
pub fn instance_seen(
    alloc: Global,
    scope: &Scope,
    items: &[VItem],
    ports: &Scope,
    instance: &VInstance,
    at: u32,
) -> Result<StmtSeen, AllocError>
    ensures { Gives result (means.instance_seen instance.now (found ports.now) (found scope.now) items.now at) }
{
    let mut met = Scope::new(alloc);
    let connections = instance.connections.as_slice();
    let seen = connections_seen(
        alloc,
        scope,
        items,
        ports,
        connections,
        plus(at, 3),
        &mut met,
    )?;
    Ok(StmtSeen {
        size: instance_tokens(seen.size, !connections.is_empty()),
        first: seen.first,
    })
}
