//! Numbers (IEEE 1364-2005 clause 3.5).

ghost use Rattle.std.specs.Prelude.{◌≡◌, true, min, map, reverse, IfOk};
ghost use Rattle.std.specs.List.{list_all};
ghost use Rattle.std.specs.Str.Parse.{digits_value};
ghost use Rattle.v_tree.specs.Tokens as spec;

use b4_core::{Bit4, Vec4};
use std::alloc::{AllocError, Global};

/// No decimal number is so great.
pub const BOUND: u64 = 4_294_967_296;

/// The number that some digits write, or 2^32 where it is greater.
pub fn decimal(digits: &[u8]) -> u64
    requires { list_all spec.is_digit digits.now ≡ true }
    ensures { result ≡ min (digits_value 10 digits.now) 4294967296 }
{
    let mut value: u64 = 0;
    for digit in digits {
        value = (value * 10 + u64::from(*digit - b'0')).min(BOUND);
    }
    value
}

fn bit(byte: u8) -> Bit4
    ensures { result ≡ spec.bit_of byte }
{
    match byte {
        b'0' => Bit4::Zero,
        b'1' => Bit4::One,
        b'x' => Bit4::X,
        _ => Bit4::Z,
    }
}

/// The bits that some digits write, the last one least.
pub fn vector(alloc: Global, digits: &[u8]) -> Result<Vec4, AllocError>
    ensures { IfOk result (λ v. v ≡ reverse (map spec.bit_of digits.now)) }
{
    let mut bits = Vec::with_capacity(alloc, digits.len())?;
    for digit in digits {
        bits.push(bit(*digit))?;
    }
    bits.reverse();
    Ok(Vec4::from_vec(bits))
}
