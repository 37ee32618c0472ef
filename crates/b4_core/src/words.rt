ghost use Rattle.std.specs.Prelude.{◌≡◌, ◌≤◌, ◌<◌, ◌-◌, true, false, min, length, replicate, ◌&&◌, IfOk, MatchOption};
ghost use Rattle.b4_core.specs.Bits.{bit_of};
ghost use Rattle.b4_core.specs.Vectors.{known, unknown, num, digits};

use crate::bit::Bit4;
use std::alloc::{AllocError, Global};

// The unsigned number of a vector, or `None` where a bit is x or z.
#[tactic(auto, using(crate::proofs::Numbers::num_room))]
pub(crate) fn word_of(v: &[Bit4]) -> Option<u128>
    requires { length v.now ≤ 128 }
    ensures { MatchOption result (known v.now ≡ false) (λ n. (known v.now ≡ true) × (n ≡ num v.now)) }
{
    let mut n: u128 = 0;
    let mut i = v.len();
    while i > 0 {
        i -= 1;
        n = match v[i] {
            Bit4::Zero => 2 * n,
            Bit4::One => 2 * n + 1,
            Bit4::X | Bit4::Z => return None,
        };
    }
    Some(n)
}

// The numbers of two vectors, or `None` where a bit of either is x or z.
pub(crate) fn words_of(a: &[Bit4], b: &[Bit4]) -> Option<(u128, u128)>
    requires first { length a.now ≤ 128 }
    requires second { length b.now ≤ 128 }
    ensures { MatchOption result ((known a.now && known b.now) ≡ false) (λ p. ((known a.now && known b.now) ≡ true) × (p.0 ≡ num a.now) × (p.1 ≡ num b.now)) }
{
    match (word_of(a), word_of(b)) {
        (Some(x), Some(y)) => Some((x, y)),
        (Some(_), None) => None,
        (None, _) => None,
    }
}

// The unsigned number of a vector, but no more than `limit`, or `None` where a bit is x or z.
pub(crate) fn capped_number(v: &[Bit4], limit: usize) -> Option<usize>
    ensures { MatchOption result (known v.now ≡ false) (λ n. (known v.now ≡ true) × (n ≡ min (num v.now) limit)) }
{
    let mut n: usize = 0;
    let mut i = v.len();
    while i > 0 {
        i -= 1;
        n = match v[i] {
            Bit4::Zero => n.saturating_add(n).min(limit),
            Bit4::One => n.saturating_add(n).saturating_add(1).min(limit),
            Bit4::X | Bit4::Z => return None,
        };
    }
    Some(n)
}

// 1 where the test holds, else 0.
pub(crate) fn bit_of_test(test: bool) -> Bit4
    ensures { result ≡ bit_of test }
{
    if test { Bit4::One } else { Bit4::Zero }
}

// The `width` lowest binary digits of `n`.
pub(crate) fn low_digits(alloc: Global, width: usize, n: u128) -> Result<Vec<Bit4>, AllocError>
    ensures { IfOk result (λ v. v.items ≡ digits width n) }
{
    let mut bits = Vec::with_capacity(alloc, width)?;
    let mut rest = n;
    for _i in 0..width {
        bits.push(bit_of_test(rest % 2 == 1))?;
        rest /= 2;
    }
    Ok(bits)
}

// `width` bits that are all x.
pub(crate) fn unknown_bits(alloc: Global, width: usize) -> Result<Vec<Bit4>, AllocError>
    ensures { IfOk result (λ v. v.items ≡ unknown width) }
{
    vec![in alloc; Bit4::X; width]
}
