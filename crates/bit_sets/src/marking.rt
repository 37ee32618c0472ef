//! Which of some numbers lie in a set.

ghost use Rattle.std.specs.Prelude.{◌≡◌, ◌+◌, ◌<◌, ◌≤◌, ℕ, drop, length, slice_index_or, IfOk};
ghost use Rattle.bit_sets.specs.Sets.{in_spans, tests_from, nothing, IsSet};

use crate::cutting::first_behind;
use crate::span::Span;
use sqlite_items::Items;
use std::alloc::{AllocError, Global};

/// Whether each of some numbers lies in a set, in ascending order.
pub type Marks = Items<bool>;

// The place of the first span that ends behind the number `low + k`, from a place on, or the length of the list.
fn next_behind(set: &[Span], from: usize, low: u128, k: usize) -> usize
    requires set { IsSet set.now }
    ensures behind { result < length set.now → low + k < (slice_index_or set.now result nothing).high }
    ensures value { (n : ℕ) → low + k ≤ n → in_spans (drop from set.now) n ≡ in_spans (drop result set.now) n }
{
    let mut at = from;
    while at < set.len() && set[at].high.saturating_sub(low) <= k as u128 {
        at += 1;
    }
    at
}

// Whether the number `low + k` lies in one of the spans from a place on, the first of which ends behind it.
fn is_next(set: &[Span], at: usize, low: u128, k: usize) -> bool
    requires set { IsSet set.now }
    requires behind { at < length set.now → low + k < (slice_index_or set.now at nothing).high }
    ensures { result ≡ in_spans (drop at set.now) (low + k) }
{
    if at < set.len() {
        set[at].low.saturating_sub(low) <= k as u128
    } else {
        false
    }
}

/// Whether each of `count` numbers from `low` on lies in a set. In steps linear in the numbers and the spans between them.
pub fn marks_of(alloc: Global, set: &[Span], low: u128, count: usize) -> Result<Marks, AllocError>
    requires set { IsSet set.now }
    ensures { IfOk result (λ r. r ≡ tests_from (in_spans set.now) low count) }
{
    let mut marks = Marks::new(alloc);
    let mut at = first_behind(set, low);
    for k in 0..count {
        at = next_behind(set, at, low, k);
        marks.push(is_next(set, at, low, k))?;
    }
    Ok(marks)
}
