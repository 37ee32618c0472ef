//! Signals that plain names join to an input of the top.

ghost use Rattle.std.specs.Prelude.{◌≡◌, ◌≤◌, ◌^◌, length, IfOk};
ghost use Rattle.sv_types.specs.Layouts.{width_of};
ghost use Rattle.sv_types.specs.Machine.{is_input};
ghost use Rattle.sv_types.specs.declared.design.Design.{Design};
ghost use Rattle.comb_order.specs.Bits.{AreNarrow};
ghost use Rattle.flow_breaks.specs.Pieces.{AreFound};
ghost use Rattle.edge_breaks.specs.Links as spec;
ghost use Rattle.edge_breaks.specs.Joins.{LinksStand, AreJoined};

use crate::links::followers;
use flow_sets::Found;
use reach_marks::{Marks, Numbers, reached};
use std::alloc::{AllocError, Global};
use sv_types::{Process, Signal, SignalKind, width};

const TOP: u32 = 1;

fn is_input_kind(kind: SignalKind) -> bool
    ensures { result ≡ is_input kind }
{
    match kind {
        SignalKind::InputNet => true,
        SignalKind::InputVar => true,
        SignalKind::OutputNet => false,
        SignalKind::OutputVar => false,
        SignalKind::Net => false,
        SignalKind::Variable => false,
    }
}

// Whether a signal is an input of the top that has one bit.
fn is_root(signal: &Signal) -> bool
    requires { width_of signal.now.of ≤ 4194304 }
    ensures { result ≡ spec.is_root signal.now }
{
    (signal.instance == TOP && is_input_kind(signal.kind)) && width(&signal.of) == 1
}

// Their numbers.
fn roots(alloc: Global, signals: &[Signal]) -> Result<Numbers, AllocError>
    requires narrow { AreNarrow signals.now }
    requires few { length signals.now ≤ 2 ^ 32 }
    ensures { IfOk result (λ r. r ≡ spec.roots_from 0 signals.now) }
{
    let mut all = Numbers::new(alloc);
    for k in 0..signals.len() {
        if is_root(&signals[k]) {
            all.push(k as u32)?;
        }
    }
    Ok(all)
}

/// Of each signal whether plain names in connections join it to an input of the top that has one bit, or it is one, by what is
/// found of the processes that can be unrolled. In steps linear in signals, processes and writes; no clause says so.
pub fn joined(
    alloc: Global,
    signals: &[Signal],
    processes: &[Process],
    found: &[Option<Found>],
) -> Result<Marks, AllocError>
    requires narrow { AreNarrow signals.now }
    requires few { length signals.now ≤ 2 ^ 32 }
    requires count { length found.now ≡ length processes.now }
    ensures { IfOk result (λ r. (d : Design) → signals.now ≡ d.signals → processes.now ≡ d.processes → AreFound d found.now → LinksStand d → AreJoined d r) }
{
    let roots = roots(alloc, signals)?;
    let next = followers(alloc, processes, found, signals.len())?;
    reached(alloc, roots.as_slice(), &next)
}
