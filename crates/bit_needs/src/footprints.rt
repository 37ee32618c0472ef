//! The numbers that a thing reads and writes.

ghost use Rattle.std.specs.Prelude.{◌≡◌, ℕ, ◌&&◌, not, IfOk};
ghost use Rattle.bit_sets.specs.Sets.{in_spans, IsSet};
ghost use Rattle.bit_needs.specs.Uses.{spans_in};

use bit_sets::{Span, Spans, Use, Uses, cut_uses, union_of};
use std::alloc::{AllocError, Global};

/// The numbers that a thing reads and doesn't write itself, and those that it writes.
#[derive(Drop)]
pub struct Footprint {
    /// A set.
    pub reads: Spans,
    /// A set.
    pub writes: Spans,
}

// The spans of uses.
fn spans_of(alloc: Global, uses: &[Use]) -> Result<Spans, AllocError>
    ensures { IfOk result (λ r. r ≡ spans_in uses.now) }
{
    let mut spans = Spans::new(alloc);
    for u in uses {
        spans.push(u.span)?;
    }
    Ok(spans)
}

/// The footprint of what reads and writes these numbers. The uses and spans stand in any order and may overlap or be empty.
/// In n log n steps for n of them, and one for each write between two ends of a read; no clause says so.
#[tactic(auto, using(crate::proofs::Cutting::cut_laws))]
pub fn footprint_of(alloc: Global, reads: &[Use], writes: &[Span]) -> Result<Footprint, AllocError>
    ensures reads { IfOk result (λ r. (n : ℕ) → in_spans r.reads n ≡ (in_spans (spans_in reads.now) n && not (in_spans writes.now n))) }
    ensures writes { IfOk result (λ r. (n : ℕ) → in_spans r.writes n ≡ in_spans writes.now n) }
    ensures read_set { IfOk result (λ r. IsSet r.reads) }
    ensures written_set { IfOk result (λ r. IsSet r.writes) }
{
    let writes = union_of(alloc, writes)?;
    let mut others = Uses::new(alloc);
    cut_uses(writes.as_slice(), reads, &mut others)?;
    let spans = spans_of(alloc, others.as_slice())?;
    let reads = union_of(alloc, spans.as_slice())?;
    Ok(Footprint { reads, writes })
}
