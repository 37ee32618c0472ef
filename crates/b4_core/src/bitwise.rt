ghost use Rattle.std.specs.Prelude.{◌≡◌, length, map, IfOk};
ghost use Rattle.b4_core.specs.Bits.{and4, or4, xor4, xnor4, not4, merge4, two_state4};
ghost use Rattle.b4_core.specs.Bitwise.{two_state_of};
ghost use Rattle.b4_core.specs.Vectors.{bitwise};

use crate::bit::{Bit4, Vec4};
use std::alloc::{AllocError, Global};

/// `a & b` of two bits: 0 where either is 0, 1 where both are 1, else x (IEEE 1800-2017 table 11-11).
pub fn both(a: Bit4, b: Bit4) -> Bit4
    ensures { result ≡ and4 a b }
{
    match (a, b) {
        (Bit4::Zero, _) | (_, Bit4::Zero) => Bit4::Zero,
        (Bit4::One, Bit4::One) => Bit4::One,
        _ => Bit4::X,
    }
}

/// `a | b` of two bits: 1 where either is 1, 0 where both are 0, else x (IEEE 1800-2017 table 11-12).
pub fn either(a: Bit4, b: Bit4) -> Bit4
    ensures { result ≡ or4 a b }
{
    match (a, b) {
        (Bit4::One, _) | (_, Bit4::One) => Bit4::One,
        (Bit4::Zero, Bit4::Zero) => Bit4::Zero,
        _ => Bit4::X,
    }
}

/// `~a` of a bit: x where it is unknown (IEEE 1800-2017 table 11-15).
pub fn negate(a: Bit4) -> Bit4
    ensures { result ≡ not4 a }
{
    match a {
        Bit4::Zero => Bit4::One,
        Bit4::One => Bit4::Zero,
        Bit4::X | Bit4::Z => Bit4::X,
    }
}

// `a ^ b` of two bits: x unless both are known.
pub(crate) fn exclusive(a: Bit4, b: Bit4) -> Bit4
    ensures { result ≡ xor4 a b }
{
    match (a, b) {
        (Bit4::Zero, Bit4::Zero) | (Bit4::One, Bit4::One) => Bit4::Zero,
        (Bit4::Zero, Bit4::One) | (Bit4::One, Bit4::Zero) => Bit4::One,
        _ => Bit4::X,
    }
}

// `a ~^ b` of two bits.
pub(crate) fn equivalent(a: Bit4, b: Bit4) -> Bit4
    ensures { result ≡ xnor4 a b }
{
    negate(exclusive(a, b))
}

// 0 or 1 where both bits are, else x.
fn agreed(a: Bit4, b: Bit4) -> Bit4
    ensures { result ≡ merge4 a b }
{
    match (a, b) {
        (Bit4::Zero, Bit4::Zero) => Bit4::Zero,
        (Bit4::One, Bit4::One) => Bit4::One,
        _ => Bit4::X,
    }
}

// 0 where the bit is x or z.
fn stored(a: Bit4) -> Bit4
    ensures { result ≡ two_state4 a }
{
    match a {
        Bit4::One => Bit4::One,
        Bit4::Zero | Bit4::X | Bit4::Z => Bit4::Zero,
    }
}

// `~v`, bit by bit.
pub(crate) fn complement(alloc: Global, v: &[Bit4]) -> Result<Vec<Bit4>, AllocError>
    ensures { IfOk result (λ r. r.items ≡ map not4 v.now) }
{
    v.iter().map(|b| negate(*b)).collect(alloc)
}

// `a & b`, bit by bit.
pub(crate) fn conjunction(alloc: Global, a: &[Bit4], b: &[Bit4]) -> Result<Vec<Bit4>, AllocError>
    ensures { IfOk result (λ r. r.items ≡ bitwise and4 a.now b.now) }
{
    a.iter().zip(b).map(|(p, q)| both(*p, *q)).collect(alloc)
}

// `a | b`, bit by bit.
pub(crate) fn disjunction(alloc: Global, a: &[Bit4], b: &[Bit4]) -> Result<Vec<Bit4>, AllocError>
    ensures { IfOk result (λ r. r.items ≡ bitwise or4 a.now b.now) }
{
    a.iter().zip(b).map(|(p, q)| either(*p, *q)).collect(alloc)
}

// `a ^ b`, bit by bit.
pub(crate) fn difference(alloc: Global, a: &[Bit4], b: &[Bit4]) -> Result<Vec<Bit4>, AllocError>
    ensures { IfOk result (λ r. r.items ≡ bitwise xor4 a.now b.now) }
{
    a.iter()
        .zip(b)
        .map(|(p, q)| exclusive(*p, *q))
        .collect(alloc)
}

// `a ~^ b`, bit by bit.
pub(crate) fn equivalence(alloc: Global, a: &[Bit4], b: &[Bit4]) -> Result<Vec<Bit4>, AllocError>
    ensures { IfOk result (λ r. r.items ≡ bitwise xnor4 a.now b.now) }
{
    a.iter()
        .zip(b)
        .map(|(p, q)| equivalent(*p, *q))
        .collect(alloc)
}

fn merged(alloc: Global, a: &[Bit4], b: &[Bit4]) -> Result<Vec<Bit4>, AllocError>
    ensures { IfOk result (λ r. r.items ≡ bitwise merge4 a.now b.now) }
{
    a.iter().zip(b).map(|(p, q)| agreed(*p, *q)).collect(alloc)
}

fn stored_bits(alloc: Global, v: &[Bit4]) -> Result<Vec<Bit4>, AllocError>
    ensures { IfOk result (λ r. r.items ≡ two_state_of v.now) }
{
    v.iter().map(|b| stored(*b)).collect(alloc)
}

/// `v` as it is stored in a two-state type, each x and z bit 0 (IEEE 1800-2017 clause 6.3.2). `AllocError` where memory runs out.
pub fn two_state(alloc: Global, v: &Vec4) -> Result<Vec4, AllocError>
    ensures { IfOk result (λ r. r ≡ two_state_of v.now) }
{
    Ok(Vec4::from_vec(stored_bits(alloc, v.as_slice())?))
}

/// What `?:` makes of two arms of one length where its condition is unknown: 0 or 1 where both bits are, else x
/// (IEEE 1800-2017 table 11-20). `AllocError` where memory runs out.
pub fn merge(alloc: Global, a: &Vec4, b: &Vec4) -> Result<Vec4, AllocError>
    requires { length a.now ≡ length b.now }
    ensures { IfOk result (λ r. r ≡ bitwise merge4 a.now b.now) }
{
    Ok(Vec4::from_vec(merged(alloc, a.as_slice(), b.as_slice())?))
}
