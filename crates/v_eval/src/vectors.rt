//! Operations on vectors of any length: what `b4_core` gives for vectors with a bit, and for those without one.

ghost use Rattle.std.specs.Prelude.{◌≡◌, ◌≤◌, ◌<◌, ◌∷◌, [], length, take, IfOk};
ghost use Rattle.b4_core.specs.Vectors.{ext, top_bit};
ghost use Rattle.b4_core.specs.Unary.{unary_value, UnaryFitsWord};
ghost use Rattle.b4_core.specs.Binary.{binary_value, BinaryFitsWord};
ghost use Rattle.b4_core.specs.Shift.{shift_value};
ghost use Rattle.b4_core.specs.Power.{power_value};
ghost use Rattle.b4_core.specs.Reduce.{reduction};
ghost use Rattle.b4_core.specs.Compare.{order_value};
ghost use Rattle.v_meaning.specs.Values.{chosen as pick, often};
ghost use Rattle.v_eval.specs.Vectors.{stacked, fill_bit, none_ordered, none_reduced};

use b4_core::{
    BinOp, Bit4, OrdOp, RedOp, ShiftOp, UnOp, Vec4, binary, merge, order, power, reduce, shift,
    unary,
};
use std::alloc::{AllocError, Global};

/// The vector without a bit.
pub fn empty(alloc: Global) -> Vec4
    ensures { result ≡ [] }
{
    Vec4::from_vec(Vec::new(alloc))
}

// The most significant bit, 0 where there is none.
#[tactic(auto, using(crate::proofs::NoBits::empties))]
fn top_of(v: &Vec4) -> Bit4
    ensures { result ≡ top_bit v.now }
{
    if v.len() == 0 {
        return Bit4::Zero;
    }
    v.at(v.len() - 1)
}

// The most significant bit where a vector is signed, else 0.
fn fill_of(v: &Vec4, signed: bool) -> Bit4
    ensures { result ≡ fill_bit signed v.now }
{
    if signed { top_of(v) } else { Bit4::Zero }
}

/// A vector cut to so many bits, or filled up to them with its top bit if it is signed, else with 0 (IEEE 1364-2005 clauses
/// 5.4.1 and 5.5.4). Or want of memory.
#[tactic(auto, using(crate::proofs::NoBits::empties))]
pub fn extended(alloc: Global, v: &Vec4, width: usize, signed: bool) -> Result<Vec4, AllocError>
    ensures { IfOk result (λ r. r ≡ ext width signed v.now) }
{
    let fill = fill_of(v, signed);
    let mut bits = Vec::from_slice(alloc, v.as_slice())?;
    bits.resize(width, fill)?;
    Ok(Vec4::from_vec(bits))
}

/// One bit in its context. Or want of memory.
pub fn one_bit(alloc: Global, b: Bit4, width: usize, signed: bool) -> Result<Vec4, AllocError>
    ensures { IfOk result (λ v. v ≡ ext width signed (b ∷ [])) }
{
    extended(alloc, &Vec4::from_slice(alloc, &[b])?, width, signed)
}

/// The lowest bits. Or want of memory.
pub fn cut(alloc: Global, v: &Vec4, width: usize) -> Result<Vec4, AllocError>
    ensures { IfOk result (λ r. r ≡ take width v.now) }
{
    let bits = v.as_slice();
    if width <= bits.len() {
        Vec4::from_slice(alloc, &bits[..width])
    } else {
        Vec4::from_slice(alloc, bits)
    }
}

/// `~v` or `-v`. Or want of memory.
#[tactic(auto, using(crate::proofs::NoBits::empties))]
pub fn transformed(alloc: Global, op: UnOp, v: &Vec4) -> Result<Vec4, AllocError>
    requires narrow { UnaryFitsWord op (length v.now) }
    ensures { IfOk result (λ r. r ≡ unary_value op v.now) }
{
    if v.len() == 0 {
        return Ok(empty(alloc));
    }
    unary(alloc, op, v)
}

/// An operation on two vectors of one length. Or want of memory.
#[tactic(auto, using(crate::proofs::NoBits::empties))]
pub fn combined(
    alloc: Global,
    op: BinOp,
    a: &Vec4,
    b: &Vec4,
    signed: bool,
) -> Result<Vec4, AllocError>
    requires same { length a.now ≡ length b.now }
    requires narrow { BinaryFitsWord op (length a.now) }
    ensures { IfOk result (λ r. r ≡ binary_value op signed a.now b.now) }
{
    if a.len() == 0 {
        return Ok(empty(alloc));
    }
    binary(alloc, op, a, b, signed)
}

// A vector with a bit that has the same numbers.
#[tactic(auto, using(crate::proofs::NoBits::empties))]
fn shift_some(
    alloc: Global,
    op: ShiftOp,
    v: &Vec4,
    by: &Vec4,
    signed: bool,
) -> Result<Vec4, AllocError>
    requires { 0 < length v.now }
    ensures { IfOk result (λ r. r ≡ shift_value op signed v.now by.now) }
{
    if by.len() == 0 {
        let zero = Vec4::from_slice(alloc, &[Bit4::Zero])?;
        return Ok(shift(alloc, op, v, &zero, signed)?);
    }
    shift(alloc, op, v, by, signed)
}

/// A vector shifted by an unsigned number. Or want of memory.
#[tactic(auto, using(crate::proofs::NoBits::empties))]
pub fn shifted(
    alloc: Global,
    op: ShiftOp,
    v: &Vec4,
    by: &Vec4,
    signed: bool,
) -> Result<Vec4, AllocError>
    ensures { IfOk result (λ r. r ≡ shift_value op signed v.now by.now) }
{
    if v.len() == 0 {
        return Ok(empty(alloc));
    }
    shift_some(alloc, op, v, by, signed)
}

// A power of a vector with a bit.
#[tactic(auto, using(crate::proofs::NoBits::empties))]
fn power_some(
    alloc: Global,
    a: &Vec4,
    b: &Vec4,
    a_signed: bool,
    b_signed: bool,
) -> Result<Vec4, AllocError>
    requires some { 0 < length a.now }
    requires base { length a.now ≤ 128 }
    requires exponent { length b.now ≤ 128 }
    ensures { IfOk result (λ r. r ≡ power_value a_signed b_signed a.now b.now) }
{
    if b.len() == 0 {
        let zero = Vec4::from_slice(alloc, &[Bit4::Zero])?;
        return Ok(power(alloc, a, &zero, a_signed, b_signed)?);
    }
    power(alloc, a, b, a_signed, b_signed)
}

/// `a ** b`. Or want of memory.
#[tactic(auto, using(crate::proofs::NoBits::empties))]
pub fn powered(
    alloc: Global,
    a: &Vec4,
    b: &Vec4,
    a_signed: bool,
    b_signed: bool,
) -> Result<Vec4, AllocError>
    requires base { length a.now ≤ 128 }
    requires exponent { length b.now ≤ 128 }
    ensures { IfOk result (λ r. r ≡ power_value a_signed b_signed a.now b.now) }
{
    if a.len() == 0 {
        return Ok(empty(alloc));
    }
    power_some(alloc, a, b, a_signed, b_signed)
}

// The order of two vectors without a bit.
fn none_ordered(op: OrdOp) -> Bit4
    ensures { result ≡ none_ordered op }
{
    match op {
        OrdOp::Less => Bit4::Zero,
        OrdOp::LessEqual => Bit4::One,
        OrdOp::Greater => Bit4::Zero,
        OrdOp::GreaterEqual => Bit4::One,
    }
}

/// The order of two vectors of one length.
#[tactic(auto, using(crate::proofs::NoBits::empties))]
pub fn ordered(op: OrdOp, a: &Vec4, b: &Vec4, signed: bool) -> Bit4
    requires same { length a.now ≡ length b.now }
    requires narrow { length a.now ≤ 128 }
    ensures { result ≡ order_value op signed a.now b.now }
{
    if a.len() == 0 {
        return none_ordered(op);
    }
    order(op, a, b, signed)
}

// The operator between no bits.
fn none_reduced(op: RedOp) -> Bit4
    ensures { result ≡ none_reduced op }
{
    match op {
        RedOp::And => Bit4::One,
        RedOp::Or => Bit4::Zero,
        RedOp::Xor => Bit4::Zero,
        RedOp::Nand => Bit4::Zero,
        RedOp::Nor => Bit4::One,
        RedOp::Xnor => Bit4::One,
    }
}

/// The operator between all bits of a vector.
#[tactic(auto, using(crate::proofs::NoBits::empties))]
pub fn reduced(op: RedOp, v: &Vec4) -> Bit4
    ensures { result ≡ reduction op v.now }
{
    if v.len() == 0 {
        return none_reduced(op);
    }
    reduce(op, v)
}

/// The arm that a condition takes, or what both arms agree on. Or want of memory.
pub fn chosen(alloc: Global, on: Bit4, a: Vec4, b: Vec4) -> Result<Vec4, AllocError>
    requires { length a ≡ length b }
    ensures { IfOk result (λ r. r ≡ pick on a b) }
{
    match on {
        Bit4::One => Ok(a),
        Bit4::Zero => Ok(b),
        Bit4::X => merge(alloc, &a, &b),
        Bit4::Z => merge(alloc, &a, &b),
    }
}

/// The pieces, the first on top. Or want of memory.
pub fn stacked(alloc: Global, pieces: &[Vec4]) -> Result<Vec4, AllocError>
    ensures { IfOk result (λ v. v ≡ stacked pieces.now) }
{
    let mut bits = Vec::new(alloc);
    let mut i = pieces.len();
    while i > 0 {
        i -= 1;
        bits.extend_from_slice(pieces[i].as_slice())?;
    }
    Ok(Vec4::from_vec(bits))
}

/// A vector that is there so often. Or want of memory.
#[tactic(auto, using(crate::proofs::Pieces::pieces))]
pub fn repeated(alloc: Global, count: u32, v: &Vec4) -> Result<Vec4, AllocError>
    ensures { IfOk result (λ r. r ≡ often count v.now) }
{
    let mut bits = Vec::new(alloc);
    for _i in 0..count {
        bits.extend_from_slice(v.as_slice())?;
    }
    Ok(Vec4::from_vec(bits))
}
