//! Numbers of indices (IEEE 1364-2005 clause 5.2.1).

ghost use Rattle.std.specs.Prelude.{◌≡◌, ◌≤◌, ◌^◌, true, false, Bool, length, map, min, cond, Some, None, IfSome, unsigned_abs};
ghost use Rattle.b4_core.specs.Bits.{known4, is_one, not4};
ghost use Rattle.b4_core.specs.Vectors.{num, digit, number, known, top_bit};
ghost use Rattle.v_eval.specs.Indices.{most, clamped, flipped};

use b4_core::{Bit4, Vec4};

// Whether a bit is 0 or 1.
fn is_known_bit(b: Bit4) -> bool
    ensures { result ≡ known4 b }
{
    match b {
        Bit4::Zero | Bit4::One => true,
        Bit4::X | Bit4::Z => false,
    }
}

// Whether no bit is x or z.
fn is_known(v: &[Bit4]) -> bool
    ensures { result ≡ known v.now }
{
    v.iter().all(|b| is_known_bit(*b))
}

// 1 for the bit 1, or for the bit 0 where bits are negated.
fn digit_of(b: Bit4, negated: bool) -> u128
    ensures { result ≡ digit (flipped negated b) }
{
    match (b, negated) {
        (Bit4::One, false) => 1,
        (Bit4::One, true) => 0,
        (Bit4::Zero, false) => 0,
        (Bit4::Zero, true) => 1,
        (Bit4::X, _) => 0,
        (Bit4::Z, _) => 0,
    }
}

// The unsigned number of the bits, or of their negations, but no more than 2^70.
#[tactic(auto, using(crate::proofs::Flips::flips))]
fn capped(v: &[Bit4], negated: bool) -> u128
    ensures { result ≡ min (num (map (flipped negated) v.now)) most }
{
    let mut n: u128 = 0;
    let mut i = v.len();
    while i > 0 {
        i -= 1;
        n = (2 * n + digit_of(v[i], negated)).min(1180591620717411303424);
    }
    n
}

// Whether the most significant bit is 1.
fn is_top_one(v: &[Bit4]) -> bool
    ensures { result ≡ is_one (top_bit v.now) }
{
    if v.is_empty() {
        return false;
    }
    match v[v.len() - 1] {
        Bit4::One => true,
        Bit4::Zero => false,
        Bit4::X => false,
        Bit4::Z => false,
    }
}

/// The number of an index, if no bit of it is x or z. Where it is so large that nothing has such a bit or word, it is
/// another one that is as large.
#[tactic(auto, using(crate::proofs::Flips::numbers))]
pub fn index_of(v: &Vec4, signed: bool) -> Option<i128>
    ensures value { result ≡ cond (known v.now) (Some (clamped (number signed v.now))) None }
    ensures small { IfSome result (λ k. unsigned_abs k ≤ 2 ^ 71) }
{
    let v = v.as_slice();
    if !is_known(v) {
        return None;
    }
    if signed && is_top_one(v) {
        Some(-1 - capped(v, true) as i128)
    } else {
        Some(capped(v, false) as i128)
    }
}
