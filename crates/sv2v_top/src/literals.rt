//! Decimal numbers and sized binary literals (IEEE 1800-2017 clause 5.7.1).

ghost use Rattle.std.specs.Prelude.{◌≡◌, ◌^◌, ◌≤◌, ◌<◌, ◌↔◌, IsTrue, IfOk, MatchOption, map, reverse};
ghost use Rattle.sv2v_top.specs.source.Literals.{decimal, with_digit, are_digits, are_bit_digits, is_plain_size, has_binary_base, behind_base, is_plain_literal, literal_bits, bit_of_digit};

use b4_core::{Bit4, Vec4};
use std::alloc::{AllocError, Global};

/// A number with one more decimal digit. An underscore is no digit.
fn add_digit(number: u64, c: u8) -> u64
    requires { number < 2 ^ 32 }
    ensures { result ≡ with_digit number c }
{
    if c == 95 {
        number
    } else {
        10 * number + u64::from(c.saturating_sub(48))
    }
}

/// The number of a decimal, whose underscores are no digits, if it is at most `limit`.
pub fn decimal_up_to(text: &[u8], limit: u32) -> Option<u32>
    ensures { MatchOption result (limit < decimal text.now) (λ n. (n ≡ decimal text.now) × (n ≤ limit)) }
{
    let mut number = 0u64;
    for c in text {
        number = add_digit(number, *c);
        if number > u64::from(limit) {
            return None;
        }
    }
    Some(number as u32)
}

/// Whether these are decimal digits.
fn digits_only(text: &[u8]) -> bool
    ensures { result ≡ are_digits text.now }
{
    text.iter().all(|c| 48 <= *c && *c < 58)
}

/// Whether the text is decimal digits without a leading zero.
fn is_size(text: &[u8]) -> bool
    ensures { result ≡ is_plain_size text.now }
{
    match text {
        [] => false,
        [first, ..] => {
            let digits = digits_only(text);
            *first != 48 && digits
        }
    }
}

/// Whether `'b` stands in front.
fn is_binary(digits: &[u8]) -> bool
    ensures { result ≡ has_binary_base digits.now }
{
    match digits {
        [tick, base, ..] => *tick == 39 && *base == 98,
        _ => false,
    }
}

/// What stands behind `'b`.
fn behind(digits: &[u8]) -> &[u8]
    ensures { result.now ≡ behind_base digits.now }
{
    match digits {
        [_, _, rest @ ..] => rest,
        _ => &[],
    }
}

/// Whether these are binary digits.
fn bit_digits_only(text: &[u8]) -> bool
    ensures { result ≡ are_bit_digits text.now }
{
    text.iter()
        .all(|c| *c == 48 || *c == 49 || *c == 120 || *c == 122)
}

/// Whether the literal has the plain form: a size from 1 to 128, `'b`, and exactly so many of `0 1 x z`.
pub fn is_plain(size: &[u8], digits: &[u8]) -> bool
    ensures { result ≡ is_plain_literal size.now digits.now }
{
    let plain_size = is_size(size);
    let binary = is_binary(digits);
    let rest = behind(digits);
    let bits = bit_digits_only(rest);
    match decimal_up_to(size, 128) {
        None => false,
        Some(width) => plain_size && binary && rest.len() == width as usize && bits,
    }
}

/// The bit of a binary digit.
fn bit_of(c: u8) -> Bit4
    ensures { result ≡ bit_of_digit c }
{
    match c {
        b'0' => Bit4::Zero,
        b'1' => Bit4::One,
        b'x' => Bit4::X,
        _ => Bit4::Z,
    }
}

/// The bits of binary digits, least first.
fn bits_of(alloc: Global, digits: &[u8]) -> Result<Vec<Bit4>, AllocError>
    ensures { IfOk result (λ v. v.items ≡ map bit_of_digit (reverse digits.now)) }
{
    digits.iter().rev().map(|c| bit_of(*c)).collect(alloc)
}

/// The bits of the digits behind `'b`, least first.
pub fn bits(alloc: Global, digits: &[u8]) -> Result<Vec4, AllocError>
    ensures { IfOk result (λ v. v ≡ literal_bits digits.now) }
{
    let bits = bits_of(alloc, behind(digits))?;
    Ok(Vec4::from_vec(bits))
}
