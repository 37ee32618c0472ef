//! The least tokens of uses that have a number in a set, or one outside it.
#![tactic(auto)]

ghost use Rattle.std.specs.Prelude.{◌≡◌, ◌≤◌, ◌<◌, ℕ, true, length, slice_index_or, drop, IfOk};
ghost use Rattle.bit_sets.specs.Sets.{in_spans, IsSet, nothing};
ghost use Rattle.bit_tokens.specs.Tokens as spec;
ghost use Rattle.bit_tokens.specs.Tokens.{IsLeast, HasSome, Inside, Outside, Meets};

use bit_sets::{Span, Use, Uses, cut_uses};
use std::alloc::{AllocError, Global};

/// The lesser one of a token and one that may be missing.
pub fn with_token(least: Option<u32>, at: u32) -> Option<u32>
    ensures { result ≡ spec.with_token least at }
{
    match least {
        None => Some(at),
        Some(t) => Some(t.min(at)),
    }
}

/// The least token of the uses that have a number.
#[tactic(auto, using(crate::proofs::Least::least_laws))]
pub fn least_token(uses: &[Use]) -> Option<u32>
    ensures { IsLeast HasSome uses.now result }
{
    let mut least = None;
    for u in uses {
        if u.span.low < u.span.high {
            least = with_token(least, u.at);
        }
    }
    least
}

/// The least token of the uses that have a number outside a set.
pub fn least_outside(alloc: Global, set: &[Span], uses: &[Use]) -> Result<Option<u32>, AllocError>
    requires { IsSet set.now }
    ensures { IfOk result (λ r. IsLeast (Outside set.now) uses.now r) }
{
    let mut rest = Uses::new(alloc);
    cut_uses(set, uses, &mut rest)?;
    Ok(least_token(rest.as_slice()))
}

// The place of the first span that ends behind a number, or the length of the list.
fn first_behind(set: &[Span], n: u128) -> usize
    requires set { IsSet set.now }
    ensures within { result ≤ length set.now }
    ensures value { (k : ℕ) → n ≤ k → in_spans set.now k ≡ in_spans (drop result set.now) k }
    ensures behind { result < length set.now → n < (slice_index_or set.now result nothing).high }
{
    let mut low = 0;
    let mut high = set.len();
    while low < high {
        let middle = low + (high - low) / 2;
        if set[middle].high <= n {
            low = middle + 1;
        } else {
            high = middle;
        }
    }
    low
}

// Whether a span has a number that lies in a set.
#[tactic(auto, using(crate::proofs::Least::meet_laws))]
fn meets(set: &[Span], span: Span) -> bool
    requires set { IsSet set.now }
    ensures only { result ≡ true → Meets set.now span }
    ensures every { Meets set.now span → result ≡ true }
{
    let k = first_behind(set, span.low);
    if k >= set.len() {
        return false;
    }
    if span.high <= span.low {
        return false;
    }
    if span.high <= set[k].low {
        return false;
    }
    true
}

/// The least token of the uses that have a number in a set.
#[tactic(auto, using(crate::proofs::Least::least_laws))]
pub fn least_inside(set: &[Span], uses: &[Use]) -> Option<u32>
    requires set { IsSet set.now }
    ensures { IsLeast (Inside set.now) uses.now result }
{
    let mut least = None;
    for u in uses {
        if meets(set, u.span) {
            least = with_token(least, u.at);
        }
    }
    least
}
