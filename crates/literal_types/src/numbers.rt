//! The numbers that digits write (IEEE 1800-2017 clause 5.7.1).

ghost use Rattle.std.specs.Prelude.{◌≡◌, ◌≤◌, ◌%◌, ◌^◌, filter, min, IfOk};
ghost use Rattle.expr_type.specs.Literals as number;

use crate::characters::{digit_value, is_digit};
use std::alloc::{AllocError, Global};

/// More than every number whose value counts.
pub const LARGE: u64 = 4_294_967_296;

/// The digits in a text, without underscores and blanks.
pub fn digits_in(alloc: Global, text: &[u8]) -> Result<Vec<u8>, AllocError>
    ensures { IfOk result (λ digits. digits.items ≡ filter number.is_digit text.now) }
{
    text.iter().copied().filter(|c| is_digit(*c)).collect(alloc)
}

/// The decimal number of some digits, or 2^32 where it is larger.
#[tactic(auto, using(crate::proofs::Decimals::capped))]
pub fn number_of(digits: &[u8]) -> u64
    ensures { result ≡ min (number.number_from 0 digits.now) (2 ^ 32) }
{
    let mut n: u64 = 0;
    for c in digits {
        n = (10 * n + u64::from(digit_value(*c))).min(LARGE);
    }
    n
}

/// A word whose lowest binary digits are those of the decimal number of some digits.
#[tactic(auto, using(crate::proofs::Decimals::wrapped))]
pub fn low_word(digits: &[u8]) -> u128
    ensures { result ≡ number.number_from 0 digits.now % 2 ^ 128 }
{
    let mut n: u128 = 0;
    for c in digits {
        n = n.wrapping_mul(10).wrapping_add(u128::from(digit_value(*c)));
    }
    n
}
