//! Sets that grow at their end, and unions.

ghost use Rattle.std.specs.Prelude.{◌≡◌, ℕ, ◌<◌, ◌≤◌, ◌||◌, ◌∷◌, [], max, drop, length, IfOk, OnOk};
ghost use Rattle.bit_sets.specs.Sets.{covers, in_spans, Ascending, IsSet};
ghost use Rattle.bit_sets.specs.Growing.{IsGrowing, grown, end_of};

use crate::span::{Span, Spans};
use std::alloc::{AllocError, Global};

/// Puts the span from `low` to `high` behind a set, if it isn't empty.
#[tactic(auto, using(crate::proofs::Growth::growth))]
pub fn push_span(out: &mut Spans, low: u128, high: u128) -> Result<(), AllocError>
    requires set { IsSet out.old }
    requires behind { end_of 0 out.old ≤ low }
    ensures set { OnOk result (IsSet out.new) }
    ensures end { OnOk result (end_of 0 out.new ≤ max low high) }
    ensures value { OnOk result ((n : ℕ) → in_spans out.new n ≡ (in_spans out.old n || covers (record { low = low; high = high }) n)) }
{
    if low < high {
        out.push(Span { low, high })?;
    }
    Ok(())
}

/// A set, and a last span that may still grow.
#[derive(Drop)]
pub struct Growing {
    pub done: Spans,
    pub last: Span,
}

impl Growing {
    fn new(alloc: Global) -> Growing
        ensures { result ≡ record { done = []; last = record { low = 0; high = 0 } } }
    {
        Growing {
            done: Spans::new(alloc),
            last: Span { low: 0, high: 0 },
        }
    }

    // Adds a span that begins at the last one's beginning or behind it.
    #[tactic(auto, using(crate::proofs::Growth::growth))]
    fn add(&mut self, s: Span) -> Result<(), AllocError>
        requires growing { IsGrowing self.old }
        requires behind { self.old.last.low ≤ s.low }
        requires some { s.low < s.high }
        ensures growing { OnOk result (IsGrowing self.new) }
        ensures behind { OnOk result (self.new.last.low ≤ s.low) }
        ensures value { OnOk result ((n : ℕ) → grown self.new n ≡ (grown self.old n || covers s n)) }
    {
        if s.low <= self.last.high {
            self.last.high = self.last.high.max(s.high);
            return Ok(());
        }
        push_span(&mut self.done, self.last.low, self.last.high)?;
        self.last = s;
        Ok(())
    }

    // Adds all spans of a list from a place on.
    #[tactic(auto, using(crate::proofs::Growth::growth))]
    fn add_all(&mut self, spans: &[Span], from: usize) -> Result<(), AllocError>
        requires growing { IsGrowing self.old }
        requires behind { Ascending self.old.last.low (drop from spans.now) }
        ensures growing { OnOk result (IsGrowing self.new) }
        ensures nothing { OnOk result (length spans.now ≤ from → self.new ≡ self.old) }
        ensures value { OnOk result ((n : ℕ) → grown self.new n ≡ (grown self.old n || in_spans (drop from spans.now) n)) }
    {
        for k in from..spans.len() {
            self.add(spans[k])?;
        }
        Ok(())
    }

    #[tactic(auto, using(crate::proofs::Growth::growth))]
    fn finish(self) -> Result<Spans, AllocError>
        requires growing { IsGrowing self }
        ensures set { IfOk result (λ r. IsSet r) }
        ensures value { IfOk result (λ r. (n : ℕ) → in_spans r n ≡ grown self n) }
    {
        let Growing { mut done, last } = self;
        push_span(&mut done, last.low, last.high)?;
        Ok(done)
    }
}

/// The union of two sets, in steps linear in their spans.
#[tactic(auto, using(crate::proofs::Growth::growth))]
pub fn joined(alloc: Global, a: &[Span], b: &[Span]) -> Result<Spans, AllocError>
    requires a { IsSet a.now }
    requires b { IsSet b.now }
    ensures set { IfOk result (λ r. IsSet r) }
    ensures value { IfOk result (λ r. (n : ℕ) → in_spans r n ≡ (in_spans a.now n || in_spans b.now n)) }
{
    let mut growing = Growing::new(alloc);
    let mut i = 0;
    let mut j = 0;
    while i < a.len() && j < b.len() {
        if a[i].low <= b[j].low {
            growing.add(a[i])?;
            i += 1;
        } else {
            growing.add(b[j])?;
            j += 1;
        }
    }
    growing.add_all(a, i)?;
    growing.add_all(b, j)?;
    growing.finish()
}
