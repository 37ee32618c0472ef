//! The bits of signals that a process reads and writes.

ghost use Rattle.std.specs.Prelude.{◌≡◌, map, slice_index_or, IfOk};
ghost use Rattle.flow_sets.specs.declared.uses.Write.{Write};
ghost use Rattle.comb_order.specs.Bits as spec;
ghost use Rattle.comb_order.specs.Bits.{AreNarrow, IsFound, widths_of};

use bit_needs::{Footprint, footprint_of};
use bit_sets::{Span, Spans, Use, Uses};
use flow_sets::{Found, Write};
use sqlite_items::Items;
use std::alloc::{AllocError, Global};
use sv_types::{Signal, width};

/// How many bits each signal has.
pub fn widths(alloc: Global, signals: &[Signal]) -> Result<Items<u32>, AllocError>
    requires { AreNarrow signals.now }
    ensures { IfOk result (λ r. r ≡ widths_of signals.now) }
{
    let mut all = Items::new(alloc);
    for s in signals {
        all.push(width(&s.of))?;
    }
    Ok(all)
}

// The bits of a signal that is there; none of another one.
fn width_at(widths: &[u32], signal: u128) -> u32
    ensures { result ≡ slice_index_or widths.now signal 0 }
{
    if signal < widths.len() as u128 {
        widths[signal as usize]
    } else {
        0
    }
}

// What of a span lies in bits that are there of the signal that it begins in.
fn kept(widths: &[u32], span: Span) -> Span
    ensures { result ≡ spec.kept widths.now span }
{
    let signal = span.low / 4294967296;
    let end = signal * 4294967296 + u128::from(width_at(widths, signal));
    Span {
        low: span.low,
        high: span.high.min(end),
    }
}

fn kept_use(widths: &[u32], used: Use) -> Use
    ensures { result ≡ spec.kept_use widths.now used }
{
    Use {
        span: kept(widths, used.span),
        at: used.at,
    }
}

/// What of uses lies in bits that are there of the signals that they begin in.
pub fn kept_uses(alloc: Global, widths: &[u32], uses: &[Use]) -> Result<Uses, AllocError>
    ensures { IfOk result (λ r. r ≡ map (spec.kept_use widths.now) uses.now) }
{
    let mut all = Uses::new(alloc);
    for u in uses {
        all.push(kept_use(widths, *u))?;
    }
    Ok(all)
}

/// The same of writes, as spans.
pub fn kept_writes(alloc: Global, widths: &[u32], writes: &[Write]) -> Result<Spans, AllocError>
    ensures { IfOk result (λ r. r ≡ map (λ (w : Write). spec.kept widths.now w.of.span) writes.now) }
{
    let mut all = Spans::new(alloc);
    for w in writes {
        all.push(kept(widths, w.of.span))?;
    }
    Ok(all)
}

/// The same of writes, as uses.
pub fn kept_write_uses(alloc: Global, widths: &[u32], writes: &[Write]) -> Result<Uses, AllocError>
    ensures { IfOk result (λ r. r ≡ map (λ (w : Write). spec.kept_use widths.now w.of) writes.now) }
{
    let mut all = Uses::new(alloc);
    for w in writes {
        all.push(kept_use(widths, w.of))?;
    }
    Ok(all)
}

/// The bits of signals that a process reads and doesn't write itself, and those that it writes, as numbers
/// (`flow_sets`: the bits of a signal stand together). What stands past the bits of a signal is left out, and so are locals.
pub fn footprint_in(alloc: Global, widths: &[u32], found: &Found) -> Result<Footprint, AllocError>
    ensures { IfOk result (λ r. IsFound widths.now found.now r) }
{
    let reads = kept_uses(alloc, widths, found.reads.as_slice())?;
    let writes = kept_writes(alloc, widths, found.writes.as_slice())?;
    footprint_of(alloc, reads.as_slice(), writes.as_slice())
}
