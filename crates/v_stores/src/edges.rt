//! Edges on signals (IEEE 1364-2005 clause 9.7.2).

ghost use Rattle.std.specs.Prelude.{◌≡◌, map};
ghost use Rattle.std.specs.List.{list_any};
ghost use Rattle.b4_core.specs.Bitwise.{edge_of as edge_between};
ghost use Rattle.round_runner.specs.Stores.{holding};
ghost use Rattle.row_machine.specs.Steps.{is_edge};
ghost use Rattle.v_meaning.specs.Machine.{has_edge as has_edge_on};
ghost use Rattle.v_processes.specs.Processes.{edge_of};

use b4_core::{Bit4, Edge, Vec4, edge};
use v_processes::EdgeOn;

// The lowest bit of a signal, x where there is none.
fn lowest(store: &[Vec4], signal: u64) -> Bit4
    ensures { result ≡ holding store.now (record { signal = signal; bit = 0 }) }
{
    match store.get(signal as usize) {
        None => Bit4::X,
        Some(vector) => match vector.as_slice().first() {
            None => Bit4::X,
            Some(bit) => *bit,
        },
    }
}

// Whether an edge is the one that is waited for.
fn is_waited(rising: bool, edge: Edge) -> bool
    ensures { result ≡ is_edge rising edge }
{
    match edge {
        Edge::Pos => rising,
        Edge::Neg => !rising,
        Edge::None => false,
    }
}

// Whether a signal has its edge from one store to another.
fn has(on: EdgeOn, last: &[Vec4], now: &[Vec4]) -> bool
    ensures { result ≡ has_edge_on (holding last.now) (holding now.now) (edge_of on) }
{
    is_waited(
        on.rising,
        edge(lowest(last, on.signal), lowest(now, on.signal)),
    )
}

/// Whether one of the edges comes from one store to another.
pub fn has_edge(edges: &[EdgeOn], last: &[Vec4], now: &[Vec4]) -> bool
    ensures { result ≡ list_any (has_edge_on (holding last.now) (holding now.now)) (map edge_of edges.now) }
{
    for on in edges {
        if has(*on, last, now) {
            return true;
        }
    }
    false
}
