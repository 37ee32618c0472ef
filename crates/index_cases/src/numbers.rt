//! The bits of numbers (IEEE 1364-2005 clause 3.5.1).

ghost use Rattle.std.specs.Prelude.{◌≡◌, ◌≤◌, IfOk};
ghost use Rattle.b4_core.specs.Bits.{bit_of};
ghost use Rattle.b4_core.specs.Vectors.{digits, vec};

use b4_core::{Bit4, Vec4};
use std::alloc::{AllocError, Global};

/// A bit by a test.
fn bit_by(test: bool) -> Bit4
    ensures { result ≡ bit_of test }
{
    if test { Bit4::One } else { Bit4::Zero }
}

/// The lowest binary digits of a number.
fn digit_bits(alloc: Global, width: u32, n: u128) -> Result<Vec4, AllocError>
    ensures { IfOk result (λ v. v ≡ digits width n) }
{
    let mut bits = Vec::new(alloc);
    let mut rest = n;
    for _i in 0..width {
        bits.push(bit_by(rest % 2 == 1))?;
        rest /= 2;
    }
    Ok(Vec4::from_vec(bits))
}

/// A word whose lowest digits are those of a number in two's complement.
#[tactic(auto, using(crate::proofs::Words::words))]
fn low_word(width: u32, n: i128) -> u128
    requires { width ≤ 128 }
    ensures { digits width result ≡ vec width n }
{
    let magnitude = n.unsigned_abs();
    if n < 0 {
        magnitude.wrapping_neg()
    } else {
        magnitude
    }
}

/// The lowest bits of a number in two's complement, at most 128. Or want of memory.
pub fn number_bits(alloc: Global, width: u32, n: i128) -> Result<Vec4, AllocError>
    requires { width ≤ 128 }
    ensures { IfOk result (λ v. v ≡ vec width n) }
{
    let bits = digit_bits(alloc, width, low_word(width, n))?;
    Ok(bits)
}
