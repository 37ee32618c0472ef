//! What of uses lies outside a set.

ghost use Rattle.std.specs.Prelude.{◌≡◌, ℕ, ◌≤◌, ◌++◌, ◌∷◌, cond, drop, length, OnOk, [], ◌&&◌, not};
ghost use Rattle.bit_sets.specs.Sets.{covers, in_spans, Ascending, IsSet, tokens_at};

use crate::span::{Span, Use, Uses};
use std::alloc::{AllocError, Global};

// The place of the first span that ends behind a number, or the length of the list.
pub fn first_behind(set: &[Span], n: u128) -> usize
    requires set { IsSet set.now }
    ensures within { result ≤ length set.now }
    ensures value { (k : ℕ) → n ≤ k → in_spans set.now k ≡ in_spans (drop result set.now) k }
{
    let mut low = 0;
    let mut high = set.len();
    while low < high {
        let middle = low + (high - low) / 2;
        if set[middle].high <= n {
            low = middle + 1;
        } else {
            high = middle;
        }
    }
    low
}

// Adds the use of the numbers from `low` to `high`, if there are any.
fn push_use(to: &mut Uses, low: u128, high: u128, at: u32) -> Result<(), AllocError>
    ensures { OnOk result ((n : ℕ) → tokens_at to.new n ≡ tokens_at to.old n ++ cond (covers (record { low = low; high = high }) n) (at ∷ []) []) }
{
    if low < high {
        to.push(Use {
            span: Span { low, high },
            at,
        })?;
    }
    Ok(())
}

// Adds what of a use lies outside a set.
fn cut_use(set: &[Span], u: Use, to: &mut Uses) -> Result<(), AllocError>
    requires set { IsSet set.now }
    ensures { OnOk result ((n : ℕ) → tokens_at to.new n ≡ tokens_at to.old n ++ cond (covers u.span n && not (in_spans set.now n)) (u.at ∷ []) []) }
{
    let mut low = u.span.low;
    let mut k = first_behind(set, low);
    while k < set.len() && set[k].low < u.span.high {
        push_use(to, low, set[k].low, u.at)?;
        low = low.max(set[k].high);
        k += 1;
    }
    push_use(to, low, u.span.high, u.at)?;
    Ok(())
}

/// Adds to the end of a list what of some uses lies outside a set, use by use.
pub fn cut_uses(set: &[Span], uses: &[Use], to: &mut Uses) -> Result<(), AllocError>
    requires set { IsSet set.now }
    ensures { OnOk result ((n : ℕ) → tokens_at to.new n ≡ tokens_at to.old n ++ cond (in_spans set.now n) [] (tokens_at uses.now n)) }
{
    for u in uses {
        cut_use(set, *u, to)?;
    }
    Ok(())
}
