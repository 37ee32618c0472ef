//! Values of a base by their bits.

ghost use Rattle.std.specs.Prelude.{true, ◌≡◌, ◌≤◌, ◌<◌, length, is_some, IfOk};
ghost use Rattle.b4_core.specs.declared.bit.Bit4.{Bit4};
ghost use Rattle.b4_core.specs.Bits.{is_one};
ghost use Rattle.b4_core.specs.Vectors.{known, top_bit};
ghost use Rattle.enum_types.specs.Bits as bits;
ghost use Rattle.enum_types.specs.Bits.{as_signed, value_in, BitsOf};
ghost use Rattle.sv_types.specs.Layouts.{width_of};

use b4_core::{Bit4, EqOp, Vec4, equal, extend};
use eval_parts::{is_known, is_signed};
use std::alloc::{AllocError, Global};
use sv_types::{SvType, is_narrow, width};

// A vector as a signed one.
fn signed_vector(alloc: Global, v: &Vec4, signed: bool) -> Result<Vec4, AllocError>
    ensures { IfOk result (λ r. r ≡ as_signed signed v.now) }
{
    let mut bits = Vec::from_slice(alloc, v.as_slice())?;
    if !signed {
        bits.push(Bit4::Zero)?;
    }
    Ok(Vec4::from_vec(bits))
}

// Whether two signed vectors have one number.
#[tactic(auto, using(crate::proofs::Ranges::equals))]
fn has_same_number(alloc: Global, a: &Vec4, b: &Vec4) -> Result<bool, AllocError>
    requires first { 0 < length a.now }
    requires second { 0 < length b.now }
    requires short { length a.now ≤ 4194307 }
    requires brief { length b.now ≤ 4194307 }
    ensures { IfOk result (λ r. r ≡ bits.has_same_number a.now b.now) }
{
    let wide = a.len().max(b.len());
    let a = extend(alloc, a, wide as u32, true)?;
    let b = extend(alloc, b, wide as u32, true)?;
    Ok(is_one(equal(EqOp::Case, &a, &b)))
}

/// The bits in a base of a constant with this value and sign, or none where a bit of it is x or z or the base doesn't hold its number.
#[tactic(auto, using(crate::proofs::Ranges::ranges))]
pub fn in_base(
    alloc: Global,
    base: &SvType,
    v: &Vec4,
    signed: bool,
) -> Result<Option<Vec4>, AllocError>
    requires narrow { width_of base.now ≤ 4194304 }
    requires whole { 0 < width_of base.now }
    requires some { 0 < length v.now }
    requires short { length v.now ≤ 4194306 }
    ensures { IfOk result (λ o. BitsOf base.now o (value_in base.now signed v.now)) }
{
    if !is_known(v) {
        return Ok(None);
    }
    let given = signed_vector(alloc, v, signed)?;
    let cut = extend(alloc, &given, width(base), true)?;
    let back = signed_vector(alloc, &cut, is_signed(base))?;
    if has_same_number(alloc, &given, &back)? {
        Ok(Some(cut))
    } else {
        Ok(None)
    }
}

// Whether the top bit of a vector is 1.
fn is_top_one(v: &Vec4) -> bool
    requires { 0 < length v.now }
    ensures { result ≡ is_one (top_bit v.now) }
{
    is_one(v.at(v.len() - 1))
}

// Whether a base of more bits than a constant has holds its number: one without a sign holds none that is negative.
#[tactic(auto, using(crate::proofs::Far::far))]
fn holds_far(base: &SvType, v: &Vec4, signed: bool) -> bool
    requires some { 0 < length v.now }
    requires far { length v.now < width_of base.now }
    ensures { result ≡ is_some (value_in base.now signed v.now) }
{
    if !is_known(v) {
        return false;
    }
    if is_signed(base) {
        return true;
    }
    if !signed {
        return true;
    }
    !is_top_one(v)
}

/// Whether a base holds the number of a constant with this value and sign: no bit of it is x or z.
#[tactic(auto, using(crate::proofs::Far::holding))]
pub fn holds(alloc: Global, base: &SvType, v: &Vec4, signed: bool) -> Result<bool, AllocError>
    requires whole { 0 < width_of base.now }
    requires some { 0 < length v.now }
    requires short { length v.now ≤ 4194304 }
    ensures { IfOk result (λ b. b ≡ is_some (value_in base.now signed v.now)) }
{
    if !is_narrow(base) {
        return Ok(holds_far(base, v, signed));
    }
    let held = in_base(alloc, base, v, signed)?;
    Ok(held.is_some())
}

// A bit with a carry.
fn with_carry(carry: bool, b: Bit4) -> Bit4
    ensures { result ≡ bits.with_carry carry b }
{
    if !carry {
        return b;
    }
    if is_one(b) { Bit4::Zero } else { Bit4::One }
}

// Whether a bit is 1.
fn is_one(b: Bit4) -> bool
    ensures { result ≡ is_one b }
{
    match b {
        Bit4::One => true,
        Bit4::Zero => false,
        Bit4::X => false,
        Bit4::Z => false,
    }
}

// A vector and 1, in as many bits.
fn plus_one(alloc: Global, v: &[Bit4]) -> Result<Vec4, AllocError>
    ensures { IfOk result (λ r. r ≡ bits.carried true v.now) }
{
    let mut made = Vec::new(alloc);
    let mut carry = true;
    for b in v {
        made.push(with_carry(carry, *b))?;
        carry = carry && is_one(*b);
    }
    Ok(Vec4::from_vec(made))
}

/// The bits in a base of the number behind that of a value of the base, or none where the base doesn't hold it.
#[tactic(auto, using(crate::proofs::Sums::sums))]
pub fn value_after(alloc: Global, base: &SvType, last: &Vec4) -> Result<Option<Vec4>, AllocError>
    requires narrow { width_of base.now ≤ 4194304 }
    requires whole { 0 < width_of base.now }
    requires same { length last.now ≡ width_of base.now }
    requires known { known last.now ≡ true }
    ensures { IfOk result (λ o. BitsOf base.now o (bits.value_after base.now last.now)) }
{
    let value = signed_vector(alloc, last, is_signed(base))?;
    let wide = extend(alloc, &value, value.len() as u32 + 1, true)?;
    let next = plus_one(alloc, wide.as_slice())?;
    in_base(alloc, base, &next, true)
}
