//! What two sets have in common.

ghost use Rattle.std.specs.Prelude.{◌≡◌, ℕ, ◌&&◌, max, min, IfOk};
ghost use Rattle.bit_sets.specs.Sets.{in_spans, IsSet};

use crate::growing::push_span;
use crate::span::{Span, Spans};
use std::alloc::{AllocError, Global};

// The numbers that lie in both of two spans.
fn overlap(s: Span, t: Span) -> Span
    ensures { result ≡ record { low = max s.low t.low; high = min s.high t.high } }
{
    Span {
        low: s.low.max(t.low),
        high: s.high.min(t.high),
    }
}

/// The intersection of two sets, in steps linear in their spans.
#[tactic(auto, using(crate::proofs::Growth::growth))]
pub fn common(alloc: Global, a: &[Span], b: &[Span]) -> Result<Spans, AllocError>
    requires a { IsSet a.now }
    requires b { IsSet b.now }
    ensures set { IfOk result (λ r. IsSet r) }
    ensures value { IfOk result (λ r. (n : ℕ) → in_spans r n ≡ (in_spans a.now n && in_spans b.now n)) }
{
    let mut out = Spans::new(alloc);
    let mut i = 0;
    let mut j = 0;
    while i < a.len() && j < b.len() {
        let both = overlap(a[i], b[j]);
        push_span(&mut out, both.low, both.high)?;
        if a[i].high <= b[j].high {
            i += 1;
        } else {
            j += 1;
        }
    }
    Ok(out)
}
