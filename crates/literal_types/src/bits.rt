//! The bits that digits write, the least significant one first (IEEE 1800-2017 clause 5.7.1).

ghost use Rattle.std.specs.Prelude.{◌≡◌, ◌+◌, ◌-◌, ◌++◌, drop, flat_map, length, replicate, reverse, take, IfOk, OnOk};
ghost use Rattle.std.specs.List.{list_all};
ghost use Rattle.b4_core.specs.Bits.{bit_of};
ghost use Rattle.b4_core.specs.Vectors.{digits};
ghost use Rattle.expr_type.specs.Literals as number;

use crate::characters::{digit_value, is_x, is_z};
use b4_core::{Bit4, Vec4};
use std::alloc::{AllocError, Global};

// A bit by a test.
fn bit_by(test: bool) -> Bit4
    ensures { result ≡ bit_of test }
{
    if test { Bit4::One } else { Bit4::Zero }
}

// So many of one bit.
fn push_filled(bits: &mut Vec<Bit4>, count: usize, b: Bit4) -> Result<(), AllocError>
    ensures { OnOk result (bits.new.items ≡ bits.old.items ++ replicate count b) }
{
    let mut left = count;
    while left > 0 {
        bits.push(b)?;
        left -= 1;
    }
    Ok(())
}

/// The lowest binary digits of a number.
#[tactic(auto, using(crate::proofs::Digits::pushed))]
pub fn push_binary(bits: &mut Vec<Bit4>, count: u32, n: u128) -> Result<(), AllocError>
    ensures { OnOk result (bits.new.items ≡ bits.old.items ++ digits count n) }
{
    let mut rest = n;
    let mut left = count;
    while left > 0 {
        bits.push(bit_by(rest % 2 == 1))?;
        rest /= 2;
        left -= 1;
    }
    Ok(())
}

// The bits of one digit that stands for so many.
fn push_digit(bits: &mut Vec<Bit4>, each: u32, c: u8) -> Result<(), AllocError>
    ensures { OnOk result (bits.new.items ≡ bits.old.items ++ number.digit_bits each c) }
{
    if is_x(c) {
        push_filled(bits, each as usize, Bit4::X)
    } else if is_z(c) {
        push_filled(bits, each as usize, Bit4::Z)
    } else {
        push_binary(bits, each, u128::from(digit_value(c)))
    }
}

/// The bits of digits that stand for so many each.
#[tactic(auto, using(crate::proofs::Digits::last_digit))]
pub fn bits_of_digits(alloc: Global, each: u32, text: &[u8]) -> Result<Vec<Bit4>, AllocError>
    ensures { IfOk result (λ v. v.items ≡ flat_map (number.digit_bits each) (reverse text.now)) }
{
    let mut bits = Vec::new(alloc);
    let mut i = text.len();
    while i > 0 {
        i -= 1;
        push_digit(&mut bits, each, text[i])?;
    }
    Ok(bits)
}

/// Bits in a width: what is too long is cut, and what is missing is one bit.
pub fn filled(alloc: Global, width: u32, above: Bit4, bits: &[Bit4]) -> Result<Vec4, AllocError>
    ensures { IfOk result (λ v. v ≡ number.filled width above bits.now) }
{
    let width = width as usize;
    let kept = bits.len().min(width);
    let mut made = Vec::from_slice(alloc, &bits[..kept])?;
    push_filled(&mut made, width - kept, above)?;
    Ok(Vec4::from_vec(made))
}

// Whether a bit is 0.
fn is_zero(b: Bit4) -> bool
    ensures { result ≡ number.is_zero b }
{
    match b {
        Bit4::Zero => true,
        Bit4::One => false,
        Bit4::X => false,
        Bit4::Z => false,
    }
}

fn all_zero(bits: &[Bit4]) -> bool
    ensures { result ≡ list_all number.is_zero bits.now }
{
    bits.iter().all(|b| is_zero(*b))
}

/// Whether all bits above so many are 0.
pub fn is_zero_above(bits: &[Bit4], count: usize) -> bool
    ensures { result ≡ list_all number.is_zero (drop count bits.now) }
{
    if bits.len() <= count {
        return true;
    }
    all_zero(&bits[count..])
}
