ghost use Rattle.std.specs.Prelude.{◌≡◌, ◌≤◌, ◌<◌, length, IfOk, Bool, ◌+ℤ◌, ◌-ℤ◌, ◌*ℤ◌, int_div, int_rem};
ghost use Rattle.b4_core.specs.Unary.{unary_value, UnaryFitsWord};
ghost use Rattle.b4_core.specs.Binary.{binary_value, arithmetic, division, BinaryFitsWord};

use crate::bit::{Bit4, Vec4};
use crate::bitwise::{complement, conjunction, difference, disjunction, equivalence};
use crate::integers::Integer;
use crate::operators::{BinOp, UnOp};
use crate::words::{low_digits, unknown_bits, word_of, words_of};
use std::alloc::{AllocError, Global};

/// `~v` or `-v` (IEEE 1800-2017 clauses 11.4.3 and 11.4.8). The negative of a vector with x or z is all x.
/// `v` has at least one bit, and at most 128 for `-`. `AllocError` where memory runs out.
pub fn unary(alloc: Global, op: UnOp, v: &Vec4) -> Result<Vec4, AllocError>
    requires some { 0 < length v.now }
    requires narrow { UnaryFitsWord op (length v.now) }
    ensures { IfOk result (λ r. r ≡ unary_value op v.now) }
{
    let v = v.as_slice();
    let bits = match op {
        UnOp::Not => complement(alloc, v)?,
        UnOp::Neg => negative(alloc, v)?,
    };
    Ok(Vec4::from_vec(bits))
}

/// `a op b` bit by bit or by whole numbers (IEEE 1800-2017 clauses 11.4.3 and 11.4.8). An arithmetic operator gives all
/// x where an operand has x or z or the divisor is zero. Both have the same length, at least one bit, and at most 128 for
/// arithmetic. `AllocError` where memory runs out.
pub fn binary(
    alloc: Global,
    op: BinOp,
    a: &Vec4,
    b: &Vec4,
    signed: bool,
) -> Result<Vec4, AllocError>
    requires some { 0 < length a.now }
    requires same { length a.now ≡ length b.now }
    requires narrow { BinaryFitsWord op (length a.now) }
    ensures { IfOk result (λ r. r ≡ binary_value op signed a.now b.now) }
{
    let (a, b) = (a.as_slice(), b.as_slice());
    let bits = match op {
        BinOp::And => conjunction(alloc, a, b)?,
        BinOp::Or => disjunction(alloc, a, b)?,
        BinOp::Xor => difference(alloc, a, b)?,
        BinOp::Xnor => equivalence(alloc, a, b)?,
        BinOp::Add => sum(alloc, a, b)?,
        BinOp::Sub => minus(alloc, a, b)?,
        BinOp::Mul => product(alloc, a, b)?,
        BinOp::Div => quotient(alloc, a, b, signed)?,
        BinOp::Rem => remainder(alloc, a, b, signed)?,
    };
    Ok(Vec4::from_vec(bits))
}

// `-v` of at most 128 bits.
fn negative(alloc: Global, v: &[Bit4]) -> Result<Vec<Bit4>, AllocError>
    requires { length v.now ≤ 128 }
    ensures { IfOk result (λ r. r.items ≡ unary_value UnOp.Neg v.now) }
{
    match word_of(v) {
        Some(x) => low_digits(alloc, v.len(), x.wrapping_neg()),
        None => unknown_bits(alloc, v.len()),
    }
}

// `a + b` of at most 128 bits, the same for signed and unsigned operands.
fn sum(alloc: Global, a: &[Bit4], b: &[Bit4]) -> Result<Vec<Bit4>, AllocError>
    requires same { length a.now ≡ length b.now }
    requires narrow { length a.now ≤ 128 }
    ensures { IfOk result (λ r. (signed : Bool) → r.items ≡ arithmetic (λ x y. x +ℤ y) signed a.now b.now) }
{
    match words_of(a, b) {
        Some((x, y)) => low_digits(alloc, a.len(), x.wrapping_add(y)),
        None => unknown_bits(alloc, a.len()),
    }
}

// `a - b` of at most 128 bits, the same for signed and unsigned operands.
fn minus(alloc: Global, a: &[Bit4], b: &[Bit4]) -> Result<Vec<Bit4>, AllocError>
    requires same { length a.now ≡ length b.now }
    requires narrow { length a.now ≤ 128 }
    ensures { IfOk result (λ r. (signed : Bool) → r.items ≡ arithmetic (λ x y. x -ℤ y) signed a.now b.now) }
{
    match words_of(a, b) {
        Some((x, y)) => low_digits(alloc, a.len(), x.wrapping_sub(y)),
        None => unknown_bits(alloc, a.len()),
    }
}

// `a * b` of at most 128 bits, the same for signed and unsigned operands.
fn product(alloc: Global, a: &[Bit4], b: &[Bit4]) -> Result<Vec<Bit4>, AllocError>
    requires same { length a.now ≡ length b.now }
    requires narrow { length a.now ≤ 128 }
    ensures { IfOk result (λ r. (signed : Bool) → r.items ≡ arithmetic (λ x y. x *ℤ y) signed a.now b.now) }
{
    match words_of(a, b) {
        Some((x, y)) => low_digits(alloc, a.len(), x.wrapping_mul(y)),
        None => unknown_bits(alloc, a.len()),
    }
}

// `a / b` of at most 128 bits.
fn quotient(alloc: Global, a: &[Bit4], b: &[Bit4], signed: bool) -> Result<Vec<Bit4>, AllocError>
    requires some { 0 < length a.now }
    requires same { length a.now ≡ length b.now }
    requires narrow { length a.now ≤ 128 }
    ensures { IfOk result (λ r. r.items ≡ division int_div signed a.now b.now) }
{
    let Some((x, y)) = words_of(a, b) else {
        return unknown_bits(alloc, a.len());
    };
    if y == 0 {
        return unknown_bits(alloc, a.len());
    }
    let dividend = Integer::of_vector(a, x, signed);
    let quotient = dividend.quotient(Integer::of_vector(b, y, signed));
    low_digits(alloc, a.len(), quotient.low_word())
}

// `a % b` of at most 128 bits.
fn remainder(alloc: Global, a: &[Bit4], b: &[Bit4], signed: bool) -> Result<Vec<Bit4>, AllocError>
    requires some { 0 < length a.now }
    requires same { length a.now ≡ length b.now }
    requires narrow { length a.now ≤ 128 }
    ensures { IfOk result (λ r. r.items ≡ division int_rem signed a.now b.now) }
{
    let Some((x, y)) = words_of(a, b) else {
        return unknown_bits(alloc, a.len());
    };
    if y == 0 {
        return unknown_bits(alloc, a.len());
    }
    let dividend = Integer::of_vector(a, x, signed);
    let remainder = dividend.remainder(Integer::of_vector(b, y, signed));
    low_digits(alloc, a.len(), remainder.low_word())
}
