//! Vectors of bits, beside the operators.

ghost use Rattle.std.specs.Prelude.{◌≡◌, ◌≤◌, ◌||◌, ◌∷◌, [], cond, length, replicate, take, IfOk};
ghost use Rattle.b4_core.specs.Vectors.{ext, known};
ghost use Rattle.b4_core.specs.Bits.{known4};
ghost use Rattle.b4_core.specs.Bits.{not4};
ghost use Rattle.b4_core.specs.Compare.{equality};
ghost use Rattle.sv_types.specs.Layouts.{stacked, repeated};
ghost use Rattle.sv_types.specs.Operators.{chosen as pick};

use b4_core::{Bit4, EqOp, Vec4, equal, extend, merge, negate};
use std::alloc::{AllocError, Global};

/// A vector of so many of one bit.
pub fn filled(alloc: Global, width: u32, b: Bit4) -> Result<Vec4, AllocError>
    ensures { IfOk result (λ v. v ≡ replicate width b) }
{
    Ok(Vec4::from_vec(vec![in alloc; b; width as usize]?))
}

/// One bit in its context.
pub fn one_bit(alloc: Global, b: Bit4, width: u32, signed: bool) -> Result<Vec4, AllocError>
    ensures { IfOk result (λ v. v ≡ ext width signed (b ∷ [])) }
{
    extend(alloc, &Vec4::from_slice(alloc, &[b])?, width, signed)
}

/// A vector cut to so many bits, or filled up to them with its top bit if it is signed, else with 0.
pub fn extended(alloc: Global, v: &Vec4, width: u32, signed: bool) -> Result<Vec4, AllocError>
    ensures { IfOk result (λ r. r ≡ ext width signed v.now) }
{
    if v.len() == 0 {
        return filled(alloc, width, Bit4::Zero);
    }
    extend(alloc, v, width, signed)
}

/// A number in its context; one whose first digit is x or z goes on with it.
pub fn literal(
    alloc: Global,
    v: &Vec4,
    goes_on: bool,
    width: u32,
    signed: bool,
) -> Result<Vec4, AllocError>
    ensures { IfOk result (λ r. r ≡ ext width (goes_on || signed) v.now) }
{
    extended(alloc, v, width, goes_on || signed)
}

/// An equality or its negation.
pub fn equality_bit(op: EqOp, negated: bool, a: &Vec4, b: &Vec4) -> Bit4
    requires { length a.now ≡ length b.now }
    ensures { result ≡ cond negated (not4 (equality op a.now b.now)) (equality op a.now b.now) }
{
    let bit = equal(op, a, b);
    if negated { negate(bit) } else { bit }
}

/// The arm that a condition takes, or what both arms agree on.
pub fn chosen(alloc: Global, on: Bit4, a: Vec4, b: Vec4) -> Result<Vec4, AllocError>
    requires { length a ≡ length b }
    ensures { IfOk result (λ r. r ≡ pick on a b) }
{
    match on {
        Bit4::One => Ok(a),
        Bit4::Zero => Ok(b),
        Bit4::X => merge(alloc, &a, &b),
        Bit4::Z => merge(alloc, &a, &b),
    }
}

// Whether a bit is 0 or 1.
fn is_known_bit(b: Bit4) -> bool
    ensures { result ≡ known4 b }
{
    match b {
        Bit4::Zero | Bit4::One => true,
        Bit4::X | Bit4::Z => false,
    }
}

/// Whether no bit is x or z.
pub fn is_known(v: &Vec4) -> bool
    ensures { result ≡ known v.now }
{
    v.as_slice().iter().all(|b| is_known_bit(*b))
}

/// All parts, the first one on top.
pub fn stack(alloc: Global, parts: &[Vec4]) -> Result<Vec4, AllocError>
    ensures { IfOk result (λ v. v ≡ stacked parts.now) }
{
    let mut bits = Vec::new(alloc);
    let mut i = parts.len();
    while i > 0 {
        i -= 1;
        bits.extend_from_slice(parts[i].as_slice())?;
    }
    Ok(Vec4::from_vec(bits))
}

/// A vector that is there so often.
#[tactic(auto, using(crate::proofs::TypeKinds::repeating))]
pub fn repeat(alloc: Global, count: u32, part: &Vec4) -> Result<Vec4, AllocError>
    ensures { IfOk result (λ v. v ≡ repeated count part.now) }
{
    let mut bits = Vec::new(alloc);
    for _i in 0..count {
        bits.extend_from_slice(part.as_slice())?;
    }
    Ok(Vec4::from_vec(bits))
}

/// The lowest bits.
pub fn cut(alloc: Global, v: &Vec4, width: u32) -> Result<Vec4, AllocError>
    requires { width ≤ length v.now }
    ensures { IfOk result (λ r. r ≡ take width v.now) }
{
    Vec4::from_slice(alloc, &v.as_slice()[..width as usize])
}
