//! How many numbers a set holds.

ghost use Rattle.std.specs.Prelude.{◌≡◌, ◌≤◌, ℕ};
ghost use Rattle.bit_sets.specs.Sets.{in_spans, count_from, IsSet};
ghost use Rattle.bit_sets.specs.Growing.{end_of};

use crate::span::Span;

/// How many numbers a set holds, in steps linear in its spans.
pub fn count_of(set: &[Span]) -> u128
    requires set { IsSet set.now }
    ensures { (n : ℕ) → end_of 0 set.now ≤ n → result ≡ count_from (in_spans set.now) 0 n }
{
    let mut count = 0;
    for s in set {
        count += s.high - s.low;
    }
    count
}
