//! Numbers of tokens and widths, which saturate.

ghost use Rattle.std.specs.Prelude.{◌≡◌};
ghost use Rattle.v_tree.specs.Scopes.{bits_of};
ghost use Rattle.v_expr_rules.specs.Seen as means;

/// Above 128 bits the rules tell no widths apart.
const WIDE: u64 = 129;

/// The sum of two numbers of tokens, or the greatest number.
#[tactic(auto, unfolding(crate::specs::Seen::plus))]
pub fn plus(a: u32, b: u32) -> u32
    ensures { result ≡ means.plus a b }
{
    a.saturating_add(b)
}

/// The sum of two widths, of which 129 stands for all that are greater.
#[tactic(auto, unfolding(crate::specs::Seen::bits_plus))]
pub fn bits_plus(a: u32, b: u32) -> u32
    ensures { result ≡ means.bits_plus a b }
{
    let sum = u64::from(a) + u64::from(b);
    if sum < WIDE { sum as u32 } else { WIDE as u32 }
}

/// A width so many times.
#[tactic(auto, unfolding(crate::specs::Seen::bits_times))]
pub fn bits_times(count: u32, bits: u32) -> u32
    ensures { result ≡ means.bits_times count bits }
{
    let product = u64::from(count) * u64::from(bits);
    if product < WIDE {
        product as u32
    } else {
        WIDE as u32
    }
}

/// A width, of which 129 stands for all that are greater.
#[tactic(auto, unfolding(crate::specs::Seen::bits_capped))]
pub fn bits_capped(bits: u64) -> u32
    ensures { result ≡ means.bits_capped bits }
{
    if bits < WIDE {
        bits as u32
    } else {
        WIDE as u32
    }
}

/// The bits of `[left:0]`, or one without a range.
pub fn bits_of(left: Option<u32>) -> u64
    ensures { result ≡ bits_of left }
{
    match left {
        None => 1,
        Some(left) => u64::from(left) + 1,
    }
}

/// The width of what has this range, or none.
pub fn range_bits(left: Option<u32>) -> u32
    ensures { result ≡ means.range_bits left }
{
    bits_capped(bits_of(left))
}

/// The lesser one of two tokens that may be missing.
#[tactic(auto, unfolding(crate::specs::Seen::earlier))]
pub fn earlier(a: Option<u32>, b: Option<u32>) -> Option<u32>
    ensures { result ≡ means.earlier a b }
{
    match a {
        None => b,
        Some(a) => match b {
            None => Some(a),
            Some(b) => Some(if a < b { a } else { b }),
        },
    }
}

/// A token, if it breaks a rule.
pub fn mark(breaks: bool, token: u32) -> Option<u32>
    ensures { result ≡ means.mark breaks token }
{
    if breaks { Some(token) } else { None }
}
