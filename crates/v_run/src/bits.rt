//! Writes into what signals and locals hold, in place (IEEE 1364-2005 clauses 5.2 and 9.2).

ghost use Rattle.std.specs.Prelude.{◌≡◌, ◌≤◌, ◌<◌, ◌-ℤ◌, ◌++◌, ◌-◌, ℕ, pos, cond, length, replicate, slice_index_or, IfOk, OnOk};
ghost use Rattle.b4_core.specs.declared.bit.Bit4.TheVariants.{X};
ghost use Rattle.picks.specs.Windows.{within, at_least_0};
ghost use Rattle.v_eval.specs.Windows.{window_of, IsNear};
ghost use Rattle.v_run.specs.Writes.{VectorWritten, SlotWritten, Grown};

use b4_core::{Bit4, Vec4};
use std::alloc::{AllocError, Global};
use v_eval::Window;

// The bit with a number, or the lowest one where the number is negative; x behind the end.
fn bit_for(bits: &Vec4, j: i128) -> Bit4
    ensures { result ≡ slice_index_or bits.now (at_least_0 j) X }
{
    let at = if j < 0 { 0 } else { j as u128 };
    if at < bits.len() as u128 {
        bits.at(at as usize)
    } else {
        Bit4::X
    }
}

// The same bits, with x behind them up to so many.
#[tactic(auto, using(crate::proofs::Written::slots))]
fn grown(alloc: Global, v: &Vec4, count: usize) -> Result<Vec4, AllocError>
    ensures { IfOk result (λ r. Grown v.now count r) }
{
    let fill = vec![in alloc; Bit4::X; count.saturating_sub(v.len())]?;
    let mut bits = Vec::with_capacity(alloc, v.len())?;
    bits.extend_from_slice(v.as_slice())?;
    bits.extend_from_slice(&fill)?;
    Ok(Vec4::from_vec(bits))
}

// Writes the bits from one number up to another.
fn set_between(held: &mut Vec4, window: Window, low: usize, high: usize, bits: &Vec4)
    requires low { low ≡ window.low }
    requires high { high ≡ window.high }
    requires there { high ≤ length held.old }
    requires near { IsNear window }
    ensures { VectorWritten held.old held.new (window_of window) bits.now }
{
    for k in low..high {
        held.put(k, bit_for(bits, k as i128 - window.shift));
    }
}

// Writes bits through a window on a vector that reaches as high.
#[tactic(auto, using(crate::proofs::Written::slots))]
pub fn set_bits(held: &mut Vec4, window: Window, bits: &Vec4)
    requires high { window.high ≤ length held.old }
    requires near { IsNear window }
    ensures { VectorWritten held.old held.new (window_of window) bits.now }
{
    let high = window.high.min(held.len() as u128);
    if window.low < high {
        set_between(held, window, window.low as usize, high as usize, bits);
    }
}

/// Writes bits through a window of what a slot holds, behind which x is put where it is too short. Or want of memory.
#[tactic(auto, using(crate::proofs::Written::slots))]
pub fn write_bits(
    alloc: Global,
    held: &mut Vec4,
    window: Window,
    bits: &Vec4,
) -> Result<(), AllocError>
    requires near { IsNear window }
    ensures { OnOk result (SlotWritten held.old held.new (window_of window) bits.now) }
{
    if window.high <= held.len() as u128 {
        set_bits(held, window, bits);
        return Ok(());
    }
    if window.high >= 18446744073709551616 {
        return Err(AllocError);
    }
    let mut longer = grown(alloc, held, window.high as usize)?;
    set_bits(&mut longer, window, bits);
    *held = longer;
    Ok(())
}
