//! The numbers of vectors (IEEE 1800-2017 clauses 6.9 and 11.8.1).

ghost use Rattle.std.specs.Prelude.{◌≡◌, ◌≤◌, ◌+ℤ◌, length, pos, true, Some};
ghost use Rattle.b4_core.specs.Bits.{is_one};
ghost use Rattle.b4_core.specs.Vectors.{digit, number, top_bit};
ghost use Rattle.const_eval.specs.Numbers.{IsNearBy, IsNearIf, Within, number_if_known, start};

use b4_core::{Bit4, Vec4};
use eval_parts::is_known;

// Numbers farther from 0 than this aren't told apart.
const FAR: i128 = 0x1_0000_0000_0000_0000;

// 1 for the bit 1, else 0.
fn digit_of(b: Bit4) -> i128
    ensures value { result ≡ pos (digit b) }
{
    match b {
        Bit4::One => 1,
        Bit4::Zero => 0,
        Bit4::X => 0,
        Bit4::Z => 0,
    }
}

// Whether the most significant bit is 1.
fn is_top_one(v: &[Bit4]) -> bool
    ensures { result ≡ is_one (top_bit v.now) }
{
    if v.is_empty() {
        return false;
    }
    match v[v.len() - 1] {
        Bit4::One => true,
        Bit4::Zero => false,
        Bit4::X => false,
        Bit4::Z => false,
    }
}

// Where the number of a vector starts, above its top: at -1 where it is negative.
fn start_of(v: &[Bit4], signed: bool) -> i128
    ensures { result ≡ start signed v.now }
{
    if signed && is_top_one(v) { -1 } else { 0 }
}

// Whether a number is near 0.
fn is_near(n: i128) -> bool
    ensures { IsNearIf result n }
{
    if n < -FAR {
        return false;
    }
    if FAR < n {
        return false;
    }
    true
}

// The number with one more digit at its low end.
fn with_digit(n: i128, b: Bit4) -> i128
    requires { IsNearIf true n }
    ensures { result ≡ n +ℤ n +ℤ pos (digit b) }
{
    n + n + digit_of(b)
}

// The number of a vector, read from its top; none where it is far from 0.
#[tactic(auto, using(crate::proofs::Tops::tops, crate::proofs::Tops::turn))]
fn near_number(v: &[Bit4], signed: bool) -> Option<i128>
    ensures { IsNearBy result (number signed v.now) }
{
    let mut n = start_of(v, signed);
    let mut i = v.len();
    while i > 0 {
        if !is_near(n) {
            return None;
        }
        i -= 1;
        n = with_digit(n, v[i]);
    }
    Some(n)
}

// A number that is in a range.
fn in_range(n: i128, low: i64, high: i64) -> Option<i64>
    ensures { Within result (Some n) low high }
{
    if n < low as i128 {
        return None;
    }
    if (high as i128) < n {
        return None;
    }
    Some(n as i64)
}

/// The number of a vector of at most 64 bits, if no bit of it is x or z.
#[tactic(auto, using(crate::proofs::Tops::shorts))]
pub fn number_if_known(v: &Vec4, signed: bool) -> Option<i128>
    requires { length v.now ≤ 64 }
    ensures { result ≡ number_if_known signed v.now }
{
    if is_known(v) {
        near_number(v.as_slice(), signed)
    } else {
        None
    }
}

/// The number of a vector, if no bit of it is x or z and it isn't out of range.
pub fn number_within(v: &Vec4, signed: bool, low: i64, high: i64) -> Option<i64>
    ensures { Within result (number_if_known signed v.now) low high }
{
    if !is_known(v) {
        return None;
    }
    match near_number(v.as_slice(), signed) {
        None => None,
        Some(n) => in_range(n, low, high),
    }
}
