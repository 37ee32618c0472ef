//! Signals and locals that are written.

ghost use Rattle.std.specs.Prelude.{◌≡◌, ◌≤◌, ◌<◌, ℕ, length, IfOk, OnOk};
ghost use Rattle.row_machine.specs.Valuation.{put};
ghost use Rattle.picks.specs.Windows.{written};
ghost use Rattle.v_eval.specs.Windows.{window_of, IsNear};
ghost use Rattle.v_eval.specs.Holding.{slot_of, signal_bits, holding};
ghost use Rattle.v_run.specs.Writes.{SlotsWritten, SignalWritten, place, IsPlace};

use crate::bits::write_bits;
use b4_core::Vec4;
use std::alloc::{AllocError, Global};
use v_eval::{Slot, Window};

// Empty slots behind these up to the one with a number.
#[tactic(auto, using(crate::proofs::Written::further))]
fn with_local(alloc: Global, slots: &mut Vec<Vec4>, n: usize) -> Result<(), AllocError>
    ensures same { OnOk result ((m : ℕ) → slot_of slots.new.items m ≡ slot_of slots.old.items m) }
    ensures there { OnOk result (n < length slots.new.items) }
{
    while slots.len() <= n {
        slots.push(Vec4::from_vec(Vec::new(alloc)))?;
    }
    Ok(())
}

// Writes bits through a window of what the local with a number holds.
fn write_local(
    alloc: Global,
    slots: &mut Vec<Vec4>,
    n: usize,
    window: Window,
    bits: &Vec4,
) -> Result<(), AllocError>
    requires near { IsNear window }
    ensures { OnOk result (SlotsWritten slots.old.items slots.new.items n (window_of window) bits.now) }
{
    with_local(alloc, slots, n)?;
    write_bits(alloc, &mut slots[n], window, bits)
}

// Where the signal with a number stands among these; behind them where it doesn't.
fn place_of(over: &[Slot], n: u64) -> usize
    ensures { result ≡ place over.now n }
{
    for i in 0..over.len() {
        if over[i].number == n {
            return i;
        }
    }
    over.len()
}

// What the signal with a number holds before anything is written.
fn copied(alloc: Global, signals: &[Vec4], n: u64) -> Result<Vec4, AllocError>
    ensures { IfOk result (λ v. v ≡ slot_of signals.now n) }
{
    match signals.get(n as usize) {
        None => Ok(Vec4::from_vec(Vec::new(alloc))),
        Some(v) => Vec4::from_slice(alloc, v.as_slice()),
    }
}

// Where the signal with a number stands among those that are written. It is put there first where it wasn't written before.
#[tactic(auto, using(crate::proofs::HeldWrites::placing))]
fn with_signal(
    alloc: Global,
    signals: &[Vec4],
    over: &mut Vec<Slot>,
    n: u64,
) -> Result<usize, AllocError>
    ensures same { OnOk result ((m : ℕ) → signal_bits signals.now over.new.items m ≡ signal_bits signals.now over.old.items m) }
    ensures there { IfOk result (IsPlace over.new.items n) }
{
    let k = place_of(over.as_slice(), n);
    if k < over.len() {
        return Ok(k);
    }
    let bits = copied(alloc, signals, n)?;
    over.push(Slot { number: n, bits })?;
    Ok(k)
}

// Writes bits through a window of what the signal with a number holds.
#[tactic(auto, using(crate::proofs::HeldWrites::signals_written))]
fn write_signal(
    alloc: Global,
    signals: &[Vec4],
    over: &mut Vec<Slot>,
    n: u64,
    window: Window,
    bits: &Vec4,
) -> Result<(), AllocError>
    requires near { IsNear window }
    ensures { OnOk result (SignalWritten signals.now over.old.items over.new.items n (window_of window) bits.now) }
{
    let k = with_signal(alloc, signals, over, n)?;
    write_bits(alloc, &mut over[k].bits, window, bits)
}

/// Writes bits through a window of the signal or local with a number, a signal over what signals hold: it takes the time of
/// the bits that it writes where they were written before, and x is put behind a shorter one. Or want of memory.
pub fn write(
    alloc: Global,
    signals: &[Vec4],
    over: &mut Vec<Slot>,
    locals: &mut Vec<Vec4>,
    number: u64,
    window: Window,
    bits: &Vec4,
) -> Result<(), AllocError>
    requires near { IsNear window }
    ensures { OnOk result (holding signals.now over.new.items locals.new.items ≡ put (written number (window_of window) bits.now) (holding signals.now over.old.items locals.old.items)) }
{
    if number < 4294967296 {
        write_signal(alloc, signals, over, number, window, bits)
    } else {
        write_local(alloc, locals, (number - 4294967296) as usize, window, bits)
    }
}
