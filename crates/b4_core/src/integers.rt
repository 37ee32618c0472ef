ghost use Rattle.std.specs.Prelude.{◌≡◌, ◌≤◌, ◌<◌, ◌%◌, ◌^◌, true, false, ℕ, ℤ, pos, ◌≢◌, ◌↔◌, IsTrue, int_lt, int_le, int_div, int_rem, unsigned_abs, length};
ghost use Rattle.std.specs.Int.{int_pow};
ghost use Rattle.b4_core.specs.Bits.{is_one};
ghost use Rattle.b4_core.specs.Vectors.{known, num, number, vec, digits};

use crate::bit::Bit4;
use std::marker::Model;

// An integer of at most 128 bits as its sign and its absolute value.
#[derive(Drop)]
pub(crate) struct Integer {
    negative: bool,
    magnitude: u128,
}

impl Model for Integer {
    ghost use Rattle.std.specs.Prelude.{ℤ, ◌<◌, ◌≡◌, true};
    ghost use Rattle.b4_core.specs.Integers.{signed_number};

    ghost Value = { ℤ };

    ghost view = { λ n. signed_number n.negative n.magnitude };

    ghost invariant = { λ n. n.negative ≡ true → 0 < n.magnitude };
}

impl Integer {
    // The number of the vector `v`, whose unsigned number is `word`.
    pub(crate) fn of_vector(v: &[Bit4], word: u128, signed: bool) -> Integer
        requires some { 0 < length v.now }
        requires narrow { length v.now ≤ 128 }
        requires known { known v.now ≡ true }
        requires word { word ≡ num v.now }
        ensures { result ≡ number signed v.now }
    {
        if signed && is_set(v[v.len() - 1]) {
            let most = u128::MAX >> (128 - v.len() as u32);
            Integer {
                negative: true,
                magnitude: most - word + 1,
            }
        } else {
            Integer {
                negative: false,
                magnitude: word,
            }
        }
    }

    // `self / divisor`, rounded toward zero.
    pub(crate) fn quotient(self, divisor: Integer) -> Integer
        requires { divisor ≢ pos 0 }
        ensures { result ≡ int_div self divisor }
    {
        let magnitude = self.magnitude / divisor.magnitude;
        Integer {
            negative: self.negative != divisor.negative && magnitude > 0,
            magnitude,
        }
    }

    // `self % divisor`, with the sign of `self`.
    pub(crate) fn remainder(self, divisor: Integer) -> Integer
        requires { divisor ≢ pos 0 }
        ensures { result ≡ int_rem self divisor }
    {
        let magnitude = self.magnitude % divisor.magnitude;
        Integer {
            negative: self.negative && magnitude > 0,
            magnitude,
        }
    }

    // A word whose low digits are those of this number in two's complement.
    pub(crate) fn low_word(&self) -> u128
        ensures { (w : ℕ) → w ≤ 128 → digits w result ≡ vec w self.now }
    {
        if self.negative {
            self.magnitude.wrapping_neg()
        } else {
            self.magnitude
        }
    }

    // `self < other`.
    pub(crate) fn is_less(&self, other: &Integer) -> bool
        ensures { result ≡ int_lt self.now other.now }
    {
        match (self.negative, other.negative) {
            (false, false) => self.magnitude < other.magnitude,
            (false, true) => false,
            (true, false) => true,
            (true, true) => other.magnitude < self.magnitude,
        }
    }

    // `|self|`.
    pub(crate) fn magnitude(&self) -> u128
        ensures { result ≡ unsigned_abs self.now }
    {
        self.magnitude
    }

    // `self < 0`.
    pub(crate) fn is_negative(&self) -> bool
        ensures { result ≡ int_lt self.now (pos 0) }
    {
        self.negative
    }

    // A word whose low digits are those of this number to the power `exponent`, in two's complement.
    pub(crate) fn power_word(&self, exponent: u128) -> u128
        ensures { (w : ℕ) → w ≤ 128 → digits w result ≡ vec w (int_pow self.now exponent) }
    {
        let power = wrapping_power(self.magnitude, exponent);
        if self.negative && exponent % 2 == 1 {
            power.wrapping_neg()
        } else {
            power
        }
    }
}

fn is_set(b: Bit4) -> bool
    ensures { result ≡ is_one b }
{
    match b {
        Bit4::One => true,
        Bit4::Zero | Bit4::X | Bit4::Z => false,
    }
}

// The 128 lowest bits of `base` to the power `exponent`, by repeated squaring.
fn wrapping_power(base: u128, exponent: u128) -> u128
    ensures { result ≡ (base ^ exponent) % 2 ^ 128 }
{
    let mut power: u128 = 1;
    let mut square = base;
    let mut left = exponent;
    while left > 0 {
        if left % 2 == 1 {
            power = power.wrapping_mul(square);
        }
        square = square.wrapping_mul(square);
        left /= 2;
    }
    power
}
