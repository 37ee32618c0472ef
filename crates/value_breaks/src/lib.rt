//! Writes that a signal doesn't take: of a variable with a declared value by a continuous assignment or a port connection, and of
//! an input by anything but the connection to it.
#![tactic(auto)]

ghost use Rattle.std.specs.Prelude.{◌≡◌, ◌^◌, ◌<◌, ℕ, true, cond};
ghost use Rattle.flow_sets.specs.Flows.{IsFlow};
ghost use Rattle.sv_types.specs.Machine.{is_input};
ghost use Rattle.sv_types.specs.declared.design.Design.{Design};
ghost use Rattle.sv_types.specs.declared.design.Process.{Process};
ghost use Rattle.design_breaks.specs.Memories.{flow};
ghost use Rattle.design_breaks.specs.Breaks as B;
ghost use Rattle.least_breaks.specs.Least as L;
ghost use Rattle.least_breaks.specs.Least.{IsLeastToken};
ghost use Rattle.value_breaks.specs.Signals as spec;

use bit_sets::Span;
use flow_sets::{Found, Write};
use least_breaks::with_token;
use sv_types::{Process, ProcessKind, Signal, SignalKind};

// The number of the signal that a span begins in.
fn signal_of(span: Span) -> u128
    ensures { result ≡ spec.signal_of span }
{
    span.low / 4294967296
}

// Whether the signal with a number holds a declared value.
fn is_declared(signals: &[Signal], number: u128) -> bool
    ensures { result ≡ spec.is_declared signals.now number }
{
    if number < signals.len() as u128 {
        signals[number as usize].declared
    } else {
        false
    }
}

fn is_input_kind(kind: SignalKind) -> bool
    ensures { result ≡ is_input kind }
{
    match kind {
        SignalKind::InputNet => true,
        SignalKind::InputVar => true,
        SignalKind::OutputNet => false,
        SignalKind::OutputVar => false,
        SignalKind::Net => false,
        SignalKind::Variable => false,
    }
}

// Whether the signal with a number is an input.
fn is_any_input(signals: &[Signal], number: u128) -> bool
    ensures { result ≡ spec.is_any_input signals.now number }
{
    if number < signals.len() as u128 {
        is_input_kind(signals[number as usize].kind)
    } else {
        false
    }
}

// Whether a process is the connection of the port with a number.
fn is_own_link(kind: &ProcessKind, number: u128) -> bool
    ensures { result ≡ spec.is_own_link kind.now number }
{
    match kind {
        ProcessKind::Continuous => false,
        ProcessKind::Link(port) => u128::from(*port) == number,
        ProcessKind::Comb => false,
        ProcessKind::Latch => false,
        ProcessKind::Star => false,
        ProcessKind::Edges(_) => false,
    }
}

// Whether a process drives all the time what it assigns.
fn is_continuous(kind: &ProcessKind) -> bool
    ensures { result ≡ spec.is_continuous kind.now }
{
    match kind {
        ProcessKind::Continuous => true,
        ProcessKind::Link(_) => true,
        ProcessKind::Comb => false,
        ProcessKind::Latch => false,
        ProcessKind::Star => false,
        ProcessKind::Edges(_) => false,
    }
}

// Whether a write is of bits of a signal that holds a declared value.
fn is_of_value(signals: &[Signal], span: Span) -> bool
    ensures { result ≡ spec.is_of_value signals.now span }
{
    span.low < 18446744073709551616
        && (is_declared(signals, signal_of(span)) && span.low < span.high)
}

// Whether it is of bits of an input that isn't the port which a process connects.
fn is_foreign(signals: &[Signal], kind: &ProcessKind, span: Span) -> bool
    ensures { result ≡ spec.is_foreign signals.now kind.now span }
{
    is_any_input(signals, signal_of(span))
        && (span.low < span.high && !is_own_link(kind, signal_of(span)))
}

// The least token of the writes of bits that hold a declared value.
fn least_of_values(signals: &[Signal], writes: &[Write]) -> Option<u32>
    ensures { result ≡ spec.least_by (spec.is_of_value signals.now) None writes.now }
{
    let mut least = None;
    for w in writes {
        if is_of_value(signals, w.of.span) {
            least = with_token(least, w.of.at);
        }
    }
    least
}

// The lesser one of a token and the least one of the writes of other inputs.
fn least_foreign(
    signals: &[Signal],
    kind: &ProcessKind,
    so_far: Option<u32>,
    writes: &[Write],
) -> Option<u32>
    ensures { result ≡ spec.least_by (spec.is_foreign signals.now kind.now) so_far writes.now }
{
    let mut least = so_far;
    for w in writes {
        if is_foreign(signals, kind, w.of.span) {
            least = with_token(least, w.of.at);
        }
    }
    least
}

/// The first write of a variable with a declared value by a continuous assignment or a port connection that can be unrolled (E601;
/// clauses 6.5 and 10.3), by what is found of it. Signals are those of the design.
pub fn drives_a_value(signals: &[Signal], process: &Process, found: &Found) -> Option<u32>
    ensures { (d : Design) → signals.now ≡ d.signals → IsFlow found.now (flow d process.now) → B.unrolls d process.now.body ≡ true → IsLeastToken (B.drives_a_value d process.now) result }
{
    if is_continuous(&process.kind) {
        least_of_values(signals, found.writes.as_slice())
    } else {
        None
    }
}

/// The first write of an input by a process that can be unrolled and isn't the connection to it (E611; clause 23.3.3), by what is
/// found of it. Signals are those of the design.
pub fn writes_input(signals: &[Signal], process: &Process, found: &Found) -> Option<u32>
    ensures { (d : Design) → signals.now ≡ d.signals → IsFlow found.now (flow d process.now) → B.unrolls d process.now.body ≡ true → IsLeastToken (B.writes_input d process.now) result }
{
    let at_once = least_foreign(signals, &process.kind, None, found.writes.as_slice());
    least_foreign(signals, &process.kind, at_once, found.later.as_slice())
}
