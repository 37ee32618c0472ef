//! Connections of ports (IEEE 1364-2005 clause 12.3.9).

ghost use Rattle.std.specs.Prelude.{◌≡◌, ◌≤◌, max, take, false, [], slice_index_or, IfOk};
ghost use Rattle.b4_core.specs.Vectors.{ext};
ghost use Rattle.b4_core.specs.declared.bit.Bit4.TheVariants.{X};
ghost use Rattle.picks.specs.Windows.{tabulated};
ghost use Rattle.row_machine.specs.Places.{vector_at};
ghost use Rattle.v_meaning.specs.Modules.{port_target, port_value};
ghost use Rattle.v_meaning.specs.Statements.{target, changes_of as assigned_changes};
ghost use Rattle.v_meaning.specs.Values.{meaning};
ghost use Rattle.v_eval.specs.Holding.{holds, holding};
ghost use Rattle.v_eval.specs.Limits.{limits, most_given};
ghost use Rattle.v_run.specs.Changes.{changes_of, AllNear};
ghost use Rattle.v_run.specs.Limits.{target_most};
ghost use Rattle.v_exec.specs.Modules.{scope_in, callee_in, FunctionsNarrow};
ghost use Rattle.v_processes.specs.Processes.{port_named};

use b4_core::{Bit4, Vec4};
use std::alloc::{AllocError, Global};
use v_eval::{Around, Held, Module, Scope, Vectors, cut, entire, extended};
use v_exec::{call_function, given_in};
use v_processes::Port;
use v_run::{Piece, Pieces, put, target_wide};
use v_tree::{VExpr, VLval};

// So many bits, which memory runs out before where they are too many.
fn room(bits: u128) -> Result<usize, AllocError>
    ensures { IfOk result (λ n. n ≡ bits) }
{
    match usize::try_from(bits) {
        Ok(room) => Ok(room),
        Err(_) => Err(AllocError),
    }
}

// A bit, x behind the end.
fn bit_or_unknown(bits: &[Bit4], k: usize) -> Bit4
    ensures { result ≡ slice_index_or bits.now k X }
{
    if k < bits.len() { bits[k] } else { Bit4::X }
}

// The first bits, x behind the end.
#[tactic(auto, using(crate::proofs::Linking::reading))]
fn first_bits(alloc: Global, bits: &[Bit4], width: usize) -> Result<Vec4, AllocError>
    ensures { IfOk result (λ v. v ≡ tabulated width (λ k. slice_index_or bits.now k X)) }
{
    let mut made = Vec::with_capacity(alloc, width)?;
    for k in 0..width {
        made.push(bit_or_unknown(bits, k))?;
    }
    Ok(Vec4::from_vec(made))
}

// What a signal holds.
#[tactic(auto, using(crate::proofs::Linking::results))]
fn held_in(alloc: Global, signals: &[Vec4], number: u64, width: usize) -> Result<Vec4, AllocError>
    ensures { IfOk result (λ x. x ≡ vector_at (holding signals.now [] []) number width) }
{
    let held = Held {
        signals,
        over: &[],
        locals: &[],
    };
    first_bits(alloc, held.bits_of(number), width)
}

// What a port gives to a target of so many bits.
fn given_by(alloc: Global, signals: &[Vec4], port: Port, width: usize) -> Result<Vec4, AllocError>
    ensures { IfOk result (λ x. x ≡ take width (ext (max width port.bits) false (vector_at (holding signals.now [] []) port.number port.bits))) }
{
    let bits = room(port.bits)?;
    let own = held_in(alloc, signals, port.number, bits)?;
    let wide = extended(alloc, &own, width.max(bits), false)?;
    cut(alloc, &wide, width)
}

/// What a connection to an output of an instance writes by what signals hold, in an instance of a module whose signals are
/// numbered from `first` on and where calls go so deep. Or want of memory.
#[tactic(auto, using(crate::proofs::Linking::giving))]
pub fn from_port(
    alloc: Global,
    of: &Module<'_>,
    first: u32,
    depth: usize,
    signals: &[Vec4],
    to: &VLval,
    port: Port,
) -> Result<Pieces, AllocError>
    requires functions { FunctionsNarrow first of.now }
    requires narrow { target_most to.now (scope_in first depth of.now) ≤ 128 }
    ensures writes { IfOk result (λ ps. changes_of ps ≡ assigned_changes (target to.now) (port_value (port_named port)) (scope_in first depth of.now) (holding signals.now [] [])) }
    ensures near { IfOk result AllNear }
{
    let call = |held: Held<'_>, i: usize, args: Vectors| -> Result<Vec4, AllocError>
        requires { FunctionsNarrow first of.now }
        ensures { IfOk result (λ x. x ≡ (callee_in first depth of.entry.now i).run (holds held.entry) args) }
    { call_function(alloc, of, first, depth, held, i, args) };
    let around = Around {
        scope: Scope {
            locals: &[],
            next: 0,
            module: of,
            first,
            depth,
        },
        held: Held {
            signals,
            over: &[],
            locals: &[],
        },
    };
    let width = target_wide(around.scope, to)?;
    let bits = given_by(alloc, signals, port, width)?;
    let mut pieces = Pieces::new(alloc);
    put(alloc, around, &call, to, &bits, &mut pieces)?;
    Ok(pieces)
}

/// What a connection to an input of an instance writes by what signals hold, in an instance of a module whose signals are
/// numbered from `first` on and where calls go so deep. Or want of memory.
#[tactic(auto, using(crate::proofs::Linking::taking))]
pub fn into_port(
    alloc: Global,
    of: &Module<'_>,
    first: u32,
    depth: usize,
    signals: &[Vec4],
    port: Port,
    e: &VExpr,
) -> Result<Pieces, AllocError>
    requires functions { FunctionsNarrow first of.now }
    requires narrow { most_given port.bits (limits e.now) (scope_in first depth of.now) ≤ 128 }
    ensures writes { IfOk result (λ ps. changes_of ps ≡ assigned_changes (port_target (port_named port)) (meaning e.now) (scope_in first depth of.now) (holding signals.now [] [])) }
    ensures near { IfOk result AllNear }
{
    let width = room(port.bits)?;
    let bits = given_in(alloc, of, first, depth, signals, e, width)?;
    let mut pieces = Pieces::new(alloc);
    pieces.push(Piece {
        number: port.number,
        window: entire(port.bits),
        bits,
    })?;
    Ok(pieces)
}
