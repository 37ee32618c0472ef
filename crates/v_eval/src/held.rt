//! What signals and locals hold, and what is read of it (IEEE 1364-2005 clauses 4.2 and 5.2).

ghost use Rattle.std.specs.Prelude.{◌≡◌, ◌^◌, ◌<◌, ℕ, length, slice_index_or, IfOk};
ghost use Rattle.b4_core.specs.declared.bit.Bit4.TheVariants.{X};
ghost use Rattle.picks.specs.Windows.{picked, tabulated};
ghost use Rattle.v_eval.specs.Windows.{window_of, IsNear};
ghost use Rattle.v_eval.specs.Holding.{slot_of, signal_bits, bit_in, bit_or_x};

use crate::windows::Window;
use b4_core::{Bit4, Vec4};
use std::alloc::{AllocError, Global};

/// A signal that holds something else by now.
#[derive(Drop)]
pub struct Slot {
    /// The number of the signal.
    pub number: u64,
    /// What it holds.
    pub bits: Vec4,
}

/// What signals and locals hold while an expression is valued: for each, by its number, its bits, least first, the words of
/// a memory one behind the other. Locals are numbered from 2^32 on. What isn't there is x.
#[derive(Clone, Copy)]
pub struct Held<'a> {
    /// Signals.
    pub signals: &'a [Vec4],
    /// Signals that hold something else by now.
    pub over: &'a [Slot],
    /// Locals.
    pub locals: &'a [Vec4],
}

// What the one with a number of these holds.
fn bits_at(slots: &[Vec4], n: u64) -> &[Bit4]
    ensures { result.now ≡ slot_of slots.now n }
{
    match slots.get(n as usize) {
        None => &[],
        Some(v) => v.as_slice(),
    }
}

impl<'a> Held<'a> {
    // The bits of the signal with a number.
    fn signal(&self, number: u64) -> &'a [Bit4]
        ensures { result.now ≡ signal_bits self.now.signals.now self.now.over.now number }
    {
        for slot in self.over {
            if slot.number == number {
                return slot.bits.as_slice();
            }
        }
        bits_at(self.signals, number)
    }

    /// The bits of the signal or local with a number.
    pub fn bits_of(&self, number: u64) -> &'a [Bit4]
        ensures { result.now ≡ bit_in self.now number }
    {
        if number < 4294967296 {
            self.signal(number)
        } else {
            bits_at(self.locals, number - 4294967296)
        }
    }
}

// A bit, x behind the end.
fn bit_or_unknown(bits: &[Bit4], k: u128) -> Bit4
    ensures { result ≡ slice_index_or bits.now k X }
{
    if k < bits.len() as u128 {
        bits[k as usize]
    } else {
        Bit4::X
    }
}

// Bit `j` of a path, x where it is out of range.
fn bit_of_path(bits: &[Bit4], window: Window, j: usize) -> Bit4
    requires { IsNear window }
    ensures { result ≡ bit_or_x bits.now (picked (window_of window) j) }
{
    let k = j as i128 + window.shift;
    if k < 0 {
        return Bit4::X;
    }
    let at = k as u128;
    if window.low <= at && at < window.high {
        bit_or_unknown(bits, at)
    } else {
        Bit4::X
    }
}

/// The bits of a path on some bits, as many as it has: x where it is out of range. Or want of memory.
#[tactic(auto, using(crate::proofs::Reading::reading))]
pub fn read(alloc: Global, bits: &[Bit4], window: Window, width: usize) -> Result<Vec4, AllocError>
    requires { IsNear window }
    ensures { IfOk result (λ v. v ≡ tabulated width (λ j. bit_or_x bits.now (picked (window_of window) j))) }
{
    let mut made = Vec::with_capacity(alloc, width)?;
    for j in 0..width {
        made.push(bit_of_path(bits, window, j))?;
    }
    Ok(Vec4::from_vec(made))
}
