//! What select paths read (IEEE 1800-2017 clauses 7.4.6 and 11.5.1).

ghost use Rattle.std.specs.Prelude.{◌≡◌, slice_index_or, IfOk};
ghost use Rattle.b4_core.specs.declared.bit.Bit4.TheVariants.{X};
ghost use Rattle.picks.specs.Windows.{picked, tabulated};
ghost use Rattle.eval_parts.specs.Surroundings.{held_bit, slot, now_of};
ghost use Rattle.eval_parts.specs.Places.{window_of, IsNear, bit_of, bit_or_x};

use crate::paths::{Found, Root};
use b4_core::{Bit4, Vec4};
use std::alloc::{AllocError, Global};

// A bit of a vector, x behind its end.
fn bit_or_unknown(v: &Vec4, k: u32) -> Bit4
    ensures { result ≡ slice_index_or v.now k X }
{
    if (k as usize) < v.len() {
        v.at(k as usize)
    } else {
        Bit4::X
    }
}

// A bit of what a signal or local holds.
fn bit_in_slot(slots: &[Option<Vec4>], n: u32, k: u32) -> Bit4
    ensures { result ≡ held_bit (slot slots.now n) k }
{
    match slots.get(n as usize) {
        None => Bit4::X,
        Some(None) => Bit4::X,
        Some(Some(v)) => bit_or_unknown(v, k),
    }
}

// A bit of what a path stands on.
fn bit_of_root(root: &Root, signals: &[Option<Vec4>], locals: &[Option<Vec4>], k: u32) -> Bit4
    ensures { result ≡ bit_of root.now (now_of signals.now locals.now) k }
{
    match root {
        Root::Signal(n) => bit_in_slot(signals, *n, k),
        Root::Local(n) => bit_in_slot(locals, *n, k),
        Root::Value(v) => bit_or_unknown(v, k),
    }
}

// Bit `j` of a path, x where it is out of range.
fn bit_of_path(found: &Found, signals: &[Option<Vec4>], locals: &[Option<Vec4>], j: u32) -> Bit4
    requires { IsNear found.now.window.shift }
    ensures { result ≡ bit_or_x (bit_of found.now.root (now_of signals.now locals.now)) (picked (window_of found.now.window) j) }
{
    let k = j as i128 + found.window.shift;
    if (found.window.low as i128) <= k && k < (found.window.high as i128) {
        bit_of_root(&found.root, signals, locals, k as u32)
    } else {
        Bit4::X
    }
}

/// The bits of a path, as many as its type has, by what signals and locals hold, a slot for each by its number, its bits
/// least first: x where nothing is held or the path is out of range.
#[tactic(auto, using(crate::proofs::Seen::reading))]
pub fn read(
    alloc: Global,
    found: &Found,
    signals: &[Option<Vec4>],
    locals: &[Option<Vec4>],
    width: u32,
) -> Result<Vec4, AllocError>
    requires { IsNear found.now.window.shift }
    ensures { IfOk result (λ v. v ≡ tabulated width (λ j. bit_or_x (bit_of found.now.root (now_of signals.now locals.now)) (picked (window_of found.now.window) j))) }
{
    let mut bits = Vec::with_capacity(alloc, width as usize)?;
    for j in 0..width {
        bits.push(bit_of_path(found, signals, locals, j))?;
    }
    Ok(Vec4::from_vec(bits))
}
