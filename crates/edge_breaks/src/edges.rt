//! Edges that a process may not wait for.

ghost use Rattle.std.specs.Prelude.{◌≡◌, None, length};
ghost use Rattle.sv_types.specs.declared.design.Design.{Design};
ghost use Rattle.sv_types.specs.declared.design.Process.{Process};
ghost use Rattle.comb_order.specs.Bits.{AreNarrow};
ghost use Rattle.design_breaks.specs.Breaks as B;
ghost use Rattle.edge_breaks.specs.Links as spec;
ghost use Rattle.edge_breaks.specs.Joins.{AreJoined};
ghost use Rattle.least_breaks.specs.Least.{IsLeastToken};

use least_breaks::with_token;
use sv_types::{EdgeOn, Process, ProcessKind, Signal, width};

// Whether a signal has one bit and is joined to an input of the top.
fn is_fit(signals: &[Signal], joined: &[bool], number: u32) -> bool
    requires narrow { AreNarrow signals.now }
    requires count { length joined.now ≡ length signals.now }
    ensures { result ≡ spec.is_fit signals.now joined.now number }
{
    let k = number as usize;
    if k < signals.len() {
        width(&signals[k].of) == 1 && joined[k]
    } else {
        false
    }
}

// The least token of the edges on other signals.
fn least_unfit(signals: &[Signal], joined: &[bool], edges: &[EdgeOn]) -> Option<u32>
    requires narrow { AreNarrow signals.now }
    requires count { length joined.now ≡ length signals.now }
    ensures { result ≡ spec.least_unfit signals.now joined.now None edges.now }
{
    let mut least = None;
    for e in edges {
        if !is_fit(signals, joined, e.signal) {
            least = with_token(least, e.spot.at);
        }
    }
    least
}

/// The first edge of a process on a signal that hasn't one bit or that no plain names join to an input of the top (E607), by the
/// marks of those that are joined (`joined`).
pub fn unfit_edges(signals: &[Signal], joined: &[bool], process: &Process) -> Option<u32>
    requires narrow { AreNarrow signals.now }
    requires count { length joined.now ≡ length signals.now }
    ensures { (d : Design) → signals.now ≡ d.signals → AreJoined d joined.now → IsLeastToken (B.unfit_edges d process.now) result }
{
    match &process.kind {
        ProcessKind::Continuous => None,
        ProcessKind::Link(_) => None,
        ProcessKind::Comb => None,
        ProcessKind::Latch => None,
        ProcessKind::Star => None,
        ProcessKind::Edges(edges) => least_unfit(signals, joined, edges.as_slice()),
    }
}
