ghost use Rattle.std.specs.Prelude.{◌≡◌, ◌≤◌, ◌<◌, length, IfOk};
ghost use Rattle.b4_core.specs.Power.{power_value, inverse_power};

use crate::bit::{Bit4, Vec4};
use crate::integers::Integer;
use crate::words::{low_digits, unknown_bits, words_of};
use std::alloc::{AllocError, Global};

/// `a ** b` with the length of `a` (IEEE 1800-2017 clause 11.4.3 and table 11-4): all x where an operand has x or z, and
/// where 0 is raised to a negative power. Both have from 1 to 128 bits. `AllocError` where memory runs out.
pub fn power(
    alloc: Global,
    a: &Vec4,
    b: &Vec4,
    a_signed: bool,
    b_signed: bool,
) -> Result<Vec4, AllocError>
    requires base { 0 < length a.now }
    requires base_narrow { length a.now ≤ 128 }
    requires exponent { 0 < length b.now }
    requires exponent_narrow { length b.now ≤ 128 }
    ensures { IfOk result (λ r. r ≡ power_value a_signed b_signed a.now b.now) }
{
    Ok(Vec4::from_vec(power_bits(alloc, a.as_slice(), b.as_slice(), a_signed, b_signed)?))
}

fn power_bits(
    alloc: Global,
    a: &[Bit4],
    b: &[Bit4],
    a_signed: bool,
    b_signed: bool,
) -> Result<Vec<Bit4>, AllocError>
    requires base { 0 < length a.now }
    requires base_narrow { length a.now ≤ 128 }
    requires exponent { 0 < length b.now }
    requires exponent_narrow { length b.now ≤ 128 }
    ensures { IfOk result (λ r. r.items ≡ power_value a_signed b_signed a.now b.now) }
{
    let Some((x, y)) = words_of(a, b) else {
        return unknown_bits(alloc, a.len());
    };
    let exponent = Integer::of_vector(b, y, b_signed);
    let base = Integer::of_vector(a, x, a_signed);
    if exponent.is_negative() {
        return inverse_bits(alloc, a.len(), base, exponent.magnitude());
    }
    low_digits(alloc, a.len(), base.power_word(exponent.magnitude()))
}

// `base` to the power `-exponent`, in `width` bits.
fn inverse_bits(
    alloc: Global,
    width: usize,
    base: Integer,
    exponent: u128,
) -> Result<Vec<Bit4>, AllocError>
    requires { width ≤ 128 }
    ensures { IfOk result (λ r. r.items ≡ inverse_power width base exponent) }
{
    match base.magnitude() {
        0 => unknown_bits(alloc, width),
        1 => low_digits(alloc, width, base.power_word(exponent)),
        _ => low_digits(alloc, width, 0),
    }
}
