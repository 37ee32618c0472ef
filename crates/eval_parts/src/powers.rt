//! `$clog2` (IEEE 1800-2017 clause 20.8.1).

ghost use Rattle.std.specs.Prelude.{◌≡◌, ◌≤◌, pos, length, IfOk};
ghost use Rattle.b4_core.specs.Bits.{is_one, bit_of};
ghost use Rattle.b4_core.specs.Vectors.{num, vec, ext};
ghost use Rattle.sv_types.specs.Operators.{clog2_of};
ghost use Rattle.eval_parts.specs.Logs.{IsLog, HasRoom, Ceils, more};

use crate::vectors::{extended, filled, is_known};
use b4_core::{Bit4, Vec4};
use std::alloc::{AllocError, Global};

// How large a number is.
#[derive(Clone, Copy)]
enum Log {
    // It is 0.
    Nothing,
    // It is 2 to this power.
    Power(u32),
    // It lies above 2 to this power, and below 2 to the next one.
    Above(u32),
}

// Whether a bit is 1.
fn is_one_bit(b: Bit4) -> bool
    ensures { result ≡ is_one b }
{
    match b {
        Bit4::One => true,
        Bit4::Zero => false,
        Bit4::X => false,
        Bit4::Z => false,
    }
}

// The same with one more digit at the low end.
fn with_digit(log: Log, one: bool) -> Log
    requires { HasRoom log }
    ensures { result ≡ more log one }
{
    match log {
        Log::Nothing => { if one { Log::Power(0) } else { Log::Nothing } }
        Log::Power(k) => {
            if one {
                Log::Above(k + 1)
            } else {
                Log::Power(k + 1)
            }
        }
        Log::Above(k) => Log::Above(k + 1),
    }
}

// How large the number of a vector is.
fn log_of(v: &[Bit4]) -> Log
    requires { length v.now ≤ 4194304 }
    ensures { IsLog result (num v.now) (length v.now) }
{
    let mut log = Log::Nothing;
    let mut i = v.len();
    while i > 0 {
        i -= 1;
        log = with_digit(log, is_one_bit(v[i]));
    }
    log
}

// The least power of 2 that isn't below a number.
fn ceiling(log: Log) -> u32
    requires { HasRoom log }
    ensures { Ceils log result }
{
    match log {
        Log::Nothing => 0,
        Log::Power(k) => k,
        Log::Above(k) => k + 1,
    }
}

// A bit by a test.
fn bit_by(test: bool) -> Bit4
    ensures { result ≡ bit_of test }
{
    if test { Bit4::One } else { Bit4::Zero }
}

// The low digits of a number.
fn number_vector(alloc: Global, n: u32, width: usize) -> Result<Vec4, AllocError>
    ensures { IfOk result (λ v. v ≡ vec width (pos n)) }
{
    let mut bits = Vec::with_capacity(alloc, width)?;
    let mut rest = n;
    for _i in 0..width {
        bits.push(bit_by(rest % 2 == 1))?;
        rest /= 2;
    }
    Ok(Vec4::from_vec(bits))
}

// The value of `$clog2`, as 32 bits.
fn clog2_bits(alloc: Global, v: &Vec4) -> Result<Vec4, AllocError>
    requires { length v.now ≤ 4194304 }
    ensures { IfOk result (λ r. r ≡ clog2_of v.now) }
{
    if is_known(v) {
        let log = log_of(v.as_slice());
        number_vector(alloc, ceiling(log), 32)
    } else {
        filled(alloc, 32, Bit4::X)
    }
}

/// The value of `$clog2` in its context: the least power of 2 that isn't below the number of a vector, as 32 bits, all x where
/// a bit of it is x or z.
pub fn clog2(alloc: Global, v: &Vec4, width: u32, signed: bool) -> Result<Vec4, AllocError>
    requires { length v.now ≤ 4194304 }
    ensures { IfOk result (λ r. r ≡ ext width signed (clog2_of v.now)) }
{
    extended(alloc, &clog2_bits(alloc, v)?, width, signed)
}
