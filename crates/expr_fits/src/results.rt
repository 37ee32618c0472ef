//! The types that expressions have (IEEE 1800-2017 clauses 11.6 and 11.8).

ghost use Rattle.std.specs.Prelude.{◌≡◌, ◌≤◌};
ghost use Rattle.sv_types.specs.Layouts.{layout};
ghost use Rattle.expr_fits.specs.Results.{own_of, BitsIf, FourIf, ResultIf, VectorIf};

use eval_parts::is_signed;
use sv_types::{Expr, SvType, is_narrow, width};

/// The width of an expression alone; 0 where it is above 2^22.
#[tactic(auto, unfolding(crate::specs::Results::own_of), using(crate::proofs::OwnTypes::caps))]
pub fn own(e: &Expr) -> u32
    ensures value { result ≡ own_of e.now }
    ensures narrow { result ≤ 4194304 }
{
    if is_narrow(&e.of) { width(&e.of) } else { 0 }
}

/// Whether a type has a bit, and at most 2^22.
#[tactic(auto, using(crate::proofs::OwnTypes::bits))]
pub fn has_bits(t: &SvType) -> bool
    ensures { BitsIf result (layout t.now) }
{
    if !is_narrow(t) {
        return false;
    }
    if width(t) == 0 {
        return false;
    }
    true
}

/// Whether a type has bits, this width and this sign.
#[tactic(auto, using(crate::proofs::OwnTypes::results))]
pub fn is_result(t: &SvType, bits: u64, signed: bool) -> bool
    ensures { ResultIf result (layout t.now) bits signed }
{
    if !is_narrow(t) {
        return false;
    }
    let n = u64::from(width(t));
    if n == 0 {
        return false;
    }
    if n != bits {
        return false;
    }
    if is_signed(t) != signed {
        return false;
    }
    true
}

/// Whether a type is a vector of four-state bits.
#[tactic(auto, using(crate::proofs::OwnTypes::fours))]
fn is_four(t: &SvType) -> bool
    ensures { FourIf result (layout t.now) }
{
    match t {
        SvType::Scalar { four, .. } => *four,
        SvType::PackedArray { item, .. } => is_four(item.get()),
        SvType::Struct { .. } => false,
        SvType::Union { .. } => false,
        SvType::Enum { .. } => false,
        SvType::UnpackedArray { .. } => false,
    }
}

/// Whether a type is a vector of four-state bits with this width and this sign.
pub fn is_vector(t: &SvType, bits: u64, signed: bool) -> bool
    ensures { VectorIf result (layout t.now) bits signed }
{
    if !is_result(t, bits, signed) {
        return false;
    }
    is_four(t)
}
