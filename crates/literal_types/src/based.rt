//! Based numbers (IEEE 1800-2017 clause 5.7.1).

ghost use Rattle.std.specs.Prelude.{◌≡◌, ◌≤◌, ◌&&◌, pos, IfOk};
ghost use Rattle.b4_core.specs.Bits.{known4};
ghost use Rattle.b4_core.specs.Vectors.{digits, vec};
ghost use Rattle.expr_type.specs.Literals as number;

use crate::bits::{bits_of_digits, filled, is_zero_above, push_binary};
use crate::characters::{bits_of_base, is_letter, is_x, is_z};
use crate::numbers::{LARGE, digits_in, low_word, number_of};
use b4_core::{Bit4, Vec4};
use std::alloc::{AllocError, Global};
use std::marker::Model;

/// A based number.
#[derive(Drop)]
pub struct Based {
    signed: bool,
    each: u32,
    digits: Vec<u8>,
}

impl Model for Based {
    ghost use Rattle.expr_type.specs.Literals as number;

    ghost Value = { number.Based };

    ghost view = { λ b. record { signed = b.signed; each = b.each; digits = b.digits.items } };
}

// The sign, the base and the digits.
fn base_at(alloc: Global, signed: bool, text: &[u8]) -> Result<Based, AllocError>
    ensures { IfOk result (λ b. b ≡ number.base_at signed text.now) }
{
    match text {
        [] => Ok(Based {
            signed,
            each: 0,
            digits: Vec::new(alloc),
        }),
        [base, rest @ ..] => Ok(Based {
            signed,
            each: bits_of_base(*base),
            digits: digits_in(alloc, rest)?,
        }),
    }
}

// What stands behind the tick.
fn behind_tick(alloc: Global, text: &[u8]) -> Result<Based, AllocError>
    ensures { IfOk result (λ b. b ≡ number.behind_tick text.now) }
{
    match text {
        [] => base_at(alloc, false, text),
        [first, rest @ ..] => {
            if is_letter(b's', *first) {
                base_at(alloc, true, rest)
            } else {
                base_at(alloc, false, text)
            }
        }
    }
}

// The digit that goes on above all others.
fn first_digit(digits: &[u8]) -> Bit4
    ensures { result ≡ number.first_digit digits.now }
{
    match digits {
        [] => Bit4::Zero,
        [c, ..] => {
            if is_x(*c) {
                Bit4::X
            } else if is_z(*c) {
                Bit4::Z
            } else {
                Bit4::Zero
            }
        }
    }
}

/// The bit of `'0`, `'1`, `'x` or `'z`.
pub fn fill_digit(text: &[u8]) -> Bit4
    ensures { result ≡ number.fill_digit text.now }
{
    match text {
        [_, c, ..] => match *c {
            b'0' => Bit4::Zero,
            b'1' => Bit4::One,
            _ => { if is_x(*c) { Bit4::X } else { Bit4::Z } }
        },
        _ => Bit4::X,
    }
}

impl Based {
    /// A number as it is written, from its tick on.
    pub fn read(alloc: Global, text: &[u8]) -> Result<Based, AllocError>
        ensures { IfOk result (λ b. b ≡ number.based text.now) }
    {
        match text {
            [] => behind_tick(alloc, text),
            [_, rest @ ..] => behind_tick(alloc, rest),
        }
    }

    /// Whether it is signed.
    pub fn is_signed(&self) -> bool
        ensures { result ≡ self.now.signed }
    {
        self.signed
    }

    /// What stands above its digits: 0, or x or z where the first digit is x or z.
    pub fn above(&self) -> Bit4
        ensures { result ≡ number.above self.now }
    {
        first_digit(self.digits.as_slice())
    }

    // Whether its digits write a decimal number.
    fn is_decimal_number(&self) -> bool
        ensures { result ≡ (number.is_decimal self.now && known4 (number.above self.now)) }
    {
        self.each == 0 && is_known_bit(self.above())
    }

    /// Its bits in a width of at most 128.
    pub fn bits_in(&self, alloc: Global, width: u32) -> Result<Vec4, AllocError>
        requires { width ≤ 128 }
        ensures { IfOk result (λ v. v ≡ number.bits_in width self.now) }
    {
        if self.is_decimal_number() {
            return decimal_bits(alloc, width, self.digits.as_slice());
        }
        let bits = bits_of_digits(alloc, self.each, self.digits.as_slice())?;
        filled(alloc, width, self.above(), bits.as_slice())
    }

    /// Whether it has no more bits than a number without a size, which has 32.
    pub fn fits_unsized(&self, alloc: Global) -> Result<bool, AllocError>
        ensures { IfOk result (λ b. b ≡ number.fits_unsized self.now) }
    {
        if self.each == 0 {
            let is_small = number_of(self.digits.as_slice()) < LARGE;
            return Ok(is_small || !is_known_bit(self.above()));
        }
        let bits = bits_of_digits(alloc, self.each, self.digits.as_slice())?;
        Ok(is_zero_above(bits.as_slice(), 32))
    }
}

/// Whether a bit is 0 or 1.
pub fn is_known_bit(b: Bit4) -> bool
    ensures { result ≡ known4 b }
{
    match b {
        Bit4::Zero => true,
        Bit4::One => true,
        Bit4::X => false,
        Bit4::Z => false,
    }
}

// The lowest binary digits of a number.
fn number_bits(alloc: Global, width: u32, n: u128) -> Result<Vec4, AllocError>
    ensures { IfOk result (λ v. v ≡ digits width n) }
{
    let mut bits = Vec::new(alloc);
    push_binary(&mut bits, width, n)?;
    Ok(Vec4::from_vec(bits))
}

/// The bits of a decimal number in a width of at most 128.
#[tactic(auto, using(crate::proofs::Decimals::vectors))]
pub fn decimal_bits(alloc: Global, width: u32, text: &[u8]) -> Result<Vec4, AllocError>
    requires { width ≤ 128 }
    ensures { IfOk result (λ v. v ≡ vec width (pos (number.number_from 0 text.now))) }
{
    number_bits(alloc, width, low_word(text))
}
