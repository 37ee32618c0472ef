//! Unions of many spans.

ghost use Rattle.std.specs.Prelude.{◌≡◌, ℕ, IfOk};
ghost use Rattle.bit_sets.specs.Sets.{covers, in_spans, IsSet};

use crate::growing::{joined, push_span};
use crate::span::{Span, Spans};
use std::alloc::{AllocError, Global};

// The numbers of one span.
#[tactic(auto, using(crate::proofs::Growth::growth))]
fn set_of(alloc: Global, span: Span) -> Result<Spans, AllocError>
    ensures set { IfOk result (λ r. IsSet r) }
    ensures value { IfOk result (λ r. (n : ℕ) → in_spans r n ≡ covers span n) }
{
    let mut out = Spans::new(alloc);
    push_span(&mut out, span.low, span.high)?;
    Ok(out)
}

/// The numbers that lie in one of some spans, which stand in any order and may overlap or be empty. In n log n steps for n
/// spans.
#[tactic(auto, using(crate::proofs::Growth::growth))]
pub fn union_of(alloc: Global, spans: &[Span]) -> Result<Spans, AllocError>
    ensures set { IfOk result (λ r. IsSet r) }
    ensures value { IfOk result (λ r. (n : ℕ) → in_spans r n ≡ in_spans spans.now n) }
{
    if spans.len() == 0 {
        return Ok(Spans::new(alloc));
    }
    if spans.len() == 1 {
        return set_of(alloc, spans[0]);
    }
    let (lower, upper) = spans.split_at(spans.len() / 2);
    let lower = union_of(alloc, lower)?;
    let upper = union_of(alloc, upper)?;
    joined(alloc, lower.as_slice(), upper.as_slice())
}
