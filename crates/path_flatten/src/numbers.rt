//! Numbers of so many bits (IEEE 1364-2005 clause 3.5.1).

ghost use Rattle.std.specs.Prelude.{◌≡◌, ◌≤◌, ◌<◌, true, IfOk};
ghost use Rattle.b4_core.specs.Bits.{bit_of};
ghost use Rattle.b4_core.specs.Vectors.{digits, vec};
ghost use Rattle.v_meaning.specs.Values.{meaning};
ghost use Rattle.lowering_laws.specs.Terms.{number_of_bits};
ghost use Rattle.lowering_laws.specs.Terms as terms;

use b4_core::{Bit4, Vec4};
use std::alloc::{AllocError, Global};
use v_build::{literal, signing};
use v_tree::VExpr;

/// A bit by a test.
fn bit_by(test: bool) -> Bit4
    ensures { result ≡ bit_of test }
{
    if test { Bit4::One } else { Bit4::Zero }
}

/// The lowest binary digits of a number.
fn digit_bits(alloc: Global, width: u32, n: u128) -> Result<Vec4, AllocError>
    ensures { IfOk result (λ v. v ≡ digits width n) }
{
    let mut bits = Vec::new(alloc);
    let mut rest = n;
    for _i in 0..width {
        bits.push(bit_by(rest % 2 == 1))?;
        rest /= 2;
    }
    Ok(Vec4::from_vec(bits))
}

/// A word whose lowest digits are those of a number in two's complement.
#[tactic(auto, using(crate::proofs::Words::words))]
fn low_word(width: u32, n: i128) -> u128
    requires { width ≤ 128 }
    ensures { digits width result ≡ vec width n }
{
    let magnitude = n.unsigned_abs();
    if n < 0 {
        magnitude.wrapping_neg()
    } else {
        magnitude
    }
}

/// An unsigned number of so many bits.
pub fn number(alloc: Global, width: u32, n: u32) -> Result<VExpr, AllocError>
    ensures { IfOk result (λ e. meaning e ≡ number_of_bits width n) }
{
    let bits = digit_bits(alloc, width, u128::from(n))?;
    let made = literal(bits);
    Ok(made)
}

/// A signed number of so many bits, at most 128.
pub fn bound(alloc: Global, width: u32, n: i128) -> Result<VExpr, AllocError>
    requires { width ≤ 128 }
    ensures { IfOk result (λ e. meaning e ≡ terms.bound width n) }
{
    let bits = digit_bits(alloc, width, low_word(width, n))?;
    let made = signing(alloc, true, literal(bits))?;
    Ok(made)
}
