//! Writes into vectors.

ghost use Rattle.std.specs.Prelude.{◌≡◌, ◌≤◌, ◌-◌, ◌-ℤ◌, ◌++◌, ℕ, pos, cond, length, replicate, slice_index_or, IfOk};
ghost use Rattle.b4_core.specs.declared.bit.Bit4.TheVariants.{X};
ghost use Rattle.picks.specs.Windows.{within, at_least_0};
ghost use Rattle.eval_parts.specs.Places.{window_of, IsNear};

use b4_core::{Bit4, Vec4};
use eval_parts::Window;
use std::alloc::{AllocError, Global};

// The bit with a number, or the lowest one where the number is negative; x behind the end.
fn bit_for(bits: &Vec4, j: i128) -> Bit4
    ensures { result ≡ slice_index_or bits.now (at_least_0 j) X }
{
    let at = if j < 0 { 0 } else { j as u128 };
    if at < bits.len() as u128 {
        bits.at(at as usize)
    } else {
        Bit4::X
    }
}

// How far a bit lies above the first one of a path.
fn distance(k: u32, shift: i128) -> i128
    requires { IsNear shift }
    ensures { result ≡ pos k -ℤ shift }
{
    k as i128 - shift
}

/// The same bits, with x behind them up to so many.
pub fn grown(alloc: Global, v: &Vec4, count: usize) -> Result<Vec4, AllocError>
    ensures { IfOk result (λ r. r ≡ v.now ++ replicate (count - length v.now) X) }
{
    let fill = vec![in alloc; Bit4::X; count.saturating_sub(v.len())]?;
    let mut bits = Vec::with_capacity(alloc, v.len())?;
    bits.extend_from_slice(v.as_slice())?;
    bits.extend_from_slice(&fill)?;
    Ok(Vec4::from_vec(bits))
}

/// Writes bits through a window on a vector that reaches as high.
pub fn set_bits(held: &mut Vec4, window: Window, bits: &Vec4)
    requires high { window.high ≤ length held.old }
    requires near { IsNear window.shift }
    ensures long { length held.new ≡ length held.old }
    ensures bits { (k : ℕ) → slice_index_or held.new k X ≡ cond (within (window_of window) k) (slice_index_or bits.now (at_least_0 (pos k -ℤ window.shift)) X) (slice_index_or held.old k X) }
{
    for k in window.low..window.high {
        held.put(k as usize, bit_for(bits, distance(k, window.shift)));
    }
}
