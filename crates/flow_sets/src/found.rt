//! What is known of a statement before it runs.

ghost use Rattle.std.specs.Prelude.{◌≡◌, ◌∷◌, ◌++◌, ◌+◌, ◌<◌, ◌^◌, ◌&&◌, ◌||◌, ℕ, Bool, List, [], length, Some, None, cond, min, is_some, IfOk};
ghost use Rattle.bit_sets.specs.Sets.{covers, in_spans, tokens_at, IsSet};
ghost use Rattle.sv_types.specs.Surroundings as S;
ghost use Rattle.sv_types.specs.Flows as F;
ghost use Rattle.flow_sets.specs.Bits.{AreUses, AreWrites};
ghost use Rattle.flow_sets.specs.Ends.{IsKnown, AreKnown, leaves_out};
ghost use Rattle.flow_sets.specs.Flows.{IsFlow, most_counted};
ghost use Rattle.flow_sets.specs.Uses.{surely, met};
ghost use Rattle.flow_sets.specs.Uses as spec;
ghost use Rattle.sv_types.specs.declared.statement.Outcome.TheVariants as O;

use crate::ends::{Ends, caught_breaks, caught_continues, either_ends, ending, then_ends};
use crate::uses::{Write, Writes, local_span};
use bit_sets::{Span, Spans, Use, Uses, cut_uses, joined};
use std::alloc::{AllocError, Global};
use sv_source::Items;
use sv_types::Outcome;

/// Tokens.
pub type Tokens = Items<u32>;

/// What is known of a statement before it runs, by all its paths.
#[derive(Drop)]
pub struct Found {
    /// All reads, in order.
    pub reads: Uses,
    /// All blocking writes, in order.
    pub writes: Writes,
    /// All nonblocking writes, in order.
    pub later: Writes,
    /// How its paths end, and what they have written then.
    pub ends: Ends,
    /// The reads, as far as a path reads bits that it hasn't written before.
    pub early: Uses,
    /// The tokens at which a path reads a local of a block in it that it hasn't written before.
    pub unset: Tokens,
    /// Whether its loops could be unrolled.
    pub unrolls: bool,
    /// How many statements run, each counted by itself, and at most one more than may run.
    pub statements: u32,
}

const MOST: u64 = 1048577;

// The sum, as far as statements are counted.
fn count(a: u32, b: u32) -> u32
    ensures { result ≡ min (a + b) most_counted }
{
    (a as u64 + b as u64).min(MOST) as u32
}

fn both(a: bool, b: bool) -> bool
    ensures { result ≡ (a && b) }
{
    a && b
}

fn appended<T: Drop>(a: Items<T>, b: Items<T>) -> Result<Items<T>, AllocError>
    ensures { IfOk result (λ r. r ≡ a ++ b) }
{
    let mut all = a;
    all.append(b)?;
    Ok(all)
}

// Early reads of one statement, and of another one behind it.
#[tactic(auto, using(crate::proofs::Early::early_laws))]
fn early_after(before: &Option<Spans>, early: Uses, then: &[Use]) -> Result<Uses, AllocError>
    requires { IsKnown before.now }
    ensures { IfOk result (λ r. (n : ℕ) → tokens_at r n ≡ tokens_at early n ++ cond (leaves_out before.now n) (tokens_at then.now n) []) }
{
    let mut all = early;
    match before {
        None => Ok(all),
        Some(set) => {
            cut_uses(set.as_slice(), then, &mut all)?;
            Ok(all)
        }
    }
}

// Tokens of one statement, and of another one that only paths reach that go on.
#[tactic(auto, using(crate::proofs::Early::early_laws))]
fn unset_after(before: &Option<Spans>, unset: Tokens, then: Tokens) -> Result<Tokens, AllocError>
    ensures { IfOk result (λ r. r ≡ unset ++ cond (is_some before.now) then []) }
{
    match before {
        None => Ok(unset),
        Some(_) => appended(unset, then),
    }
}

// A set with the bits of a write, if it is of exactly these.
#[tactic(auto, using(crate::proofs::Early::sure_laws))]
fn with_write(alloc: Global, set: Spans, w: Write) -> Result<Spans, AllocError>
    requires { IsSet set }
    ensures set { IfOk result (λ r. IsSet r) }
    ensures value { IfOk result (λ r. (n : ℕ) → in_spans r n ≡ (in_spans set n || (w.exact && covers w.of.span n))) }
{
    if w.exact && w.of.span.low < w.of.span.high {
        let mut one = Spans::new(alloc);
        one.push(w.of.span)?;
        let all = joined(alloc, set.as_slice(), one.as_slice())?;
        return Ok(all);
    }
    Ok(set)
}

// The bits that are surely written.
#[tactic(auto, using(crate::proofs::Early::sure_laws))]
fn sure_set(alloc: Global, writes: &[Write]) -> Result<Spans, AllocError>
    ensures set { IfOk result (λ r. IsSet r) }
    ensures value { IfOk result (λ r. (n : ℕ) → in_spans r n ≡ surely writes.now n) }
{
    let mut set = Spans::new(alloc);
    for w in writes {
        set = with_write(alloc, set, *w)?;
    }
    Ok(set)
}

fn with_ends(alloc: Global, ends: Ends, unrolls: bool) -> Found
    ensures { result ≡ record { reads = []; writes = []; later = []; ends = ends; early = []; unset = []; unrolls = unrolls; statements = 0 } }
{
    Found {
        reads: Uses::new(alloc),
        writes: Writes::new(alloc),
        later: Writes::new(alloc),
        ends,
        early: Uses::new(alloc),
        unset: Tokens::new(alloc),
        unrolls,
        statements: 0,
    }
}

/// A statement that does nothing, or whose loop can't be unrolled.
#[tactic(auto, using(crate::proofs::Plain::plain_laws))]
pub fn idle(alloc: Global, unrolls: bool) -> Found
    ensures known { AreKnown result.ends }
    ensures flow { IsFlow result (record F.nothing { unrolls = unrolls }) }
{
    with_ends(alloc, ending(Outcome::Normal, Spans::new(alloc)), unrolls)
}

/// A jump.
#[tactic(auto, using(crate::proofs::Plain::plain_laws))]
pub fn jumping(alloc: Global, o: Outcome) -> Found
    ensures known { AreKnown result.ends }
    ensures flow { IsFlow result (F.jumping o) }
{
    with_ends(alloc, ending(o, Spans::new(alloc)), true)
}

/// Reads, and nothing else.
#[tactic(auto, using(crate::proofs::Plain::plain_laws))]
pub fn reading(alloc: Global, uses: Uses) -> Result<Found, AllocError>
    ensures known { IfOk result (λ r. AreKnown r.ends) }
    ensures flow { IfOk result (λ r. (us : List S.Use) → AreUses uses us → IsFlow r (F.reading us)) }
{
    let early = Uses::from_slice(alloc, uses.as_slice())?;
    let plain = idle(alloc, true);
    Ok(Found {
        reads: uses,
        early,
        ..plain
    })
}

/// Blocking writes, and nothing else.
#[tactic(auto, using(crate::proofs::Plain::plain_laws))]
pub fn writing(alloc: Global, writes: Writes) -> Result<Found, AllocError>
    ensures known { IfOk result (λ r. AreKnown r.ends) }
    ensures flow { IfOk result (λ r. (ws : List S.Write) → AreWrites writes ws → IsFlow r (F.writing ws)) }
{
    let set = sure_set(alloc, writes.as_slice())?;
    let plain = with_ends(alloc, ending(Outcome::Normal, set), true);
    Ok(Found { writes, ..plain })
}

/// Nonblocking writes, and nothing else.
#[tactic(auto, using(crate::proofs::Plain::plain_laws))]
pub fn writing_later(alloc: Global, writes: Writes) -> Found
    ensures known { AreKnown result.ends }
    ensures flow { (ws : List S.Write) → AreWrites writes ws → IsFlow result (F.writing_later ws) }
{
    let plain = idle(alloc, true);
    Found {
        later: writes,
        ..plain
    }
}

/// One statement and then another.
#[tactic(auto, using(crate::proofs::Sequences::sequence_laws))]
pub fn and_then(alloc: Global, first: Found, then: Found) -> Result<Found, AllocError>
    requires first { AreKnown first.ends }
    requires then { AreKnown then.ends }
    ensures known { IfOk result (λ r. AreKnown r.ends) }
    ensures flow { IfOk result (λ r. (f g : F.Flow) → IsFlow first f → IsFlow then g → IsFlow r (F.and_then f g)) }
{
    let Found {
        reads,
        writes,
        later,
        ends,
        early,
        unset,
        unrolls,
        statements,
    } = first;
    let early = early_after(&ends.normal, early, then.early.as_slice())?;
    let unset = unset_after(&ends.normal, unset, then.unset)?;
    let ends = then_ends(alloc, ends, then.ends)?;
    let reads = appended(reads, then.reads)?;
    let writes = appended(writes, then.writes)?;
    let later = appended(later, then.later)?;
    Ok(Found {
        reads,
        writes,
        later,
        ends,
        early,
        unset,
        unrolls: both(unrolls, then.unrolls),
        statements: count(statements, then.statements),
    })
}

/// One of two statements.
#[tactic(auto, using(crate::proofs::Sequences::sequence_laws))]
pub fn or_else(alloc: Global, a: Found, b: Found) -> Result<Found, AllocError>
    requires a { AreKnown a.ends }
    requires b { AreKnown b.ends }
    ensures known { IfOk result (λ r. AreKnown r.ends) }
    ensures flow { IfOk result (λ r. (f g : F.Flow) → IsFlow a f → IsFlow b g → IsFlow r (F.or_else f g)) }
{
    let ends = either_ends(alloc, a.ends, b.ends)?;
    let early = appended(a.early, b.early)?;
    let unset = appended(a.unset, b.unset)?;
    let reads = appended(a.reads, b.reads)?;
    let writes = appended(a.writes, b.writes)?;
    let later = appended(a.later, b.later)?;
    Ok(Found {
        reads,
        writes,
        later,
        ends,
        early,
        unset,
        unrolls: both(a.unrolls, b.unrolls),
        statements: count(a.statements, b.statements),
    })
}

/// One more statement.
#[tactic(auto, using(crate::proofs::Sequences::sequence_laws))]
pub fn counted(f: Found) -> Found
    ensures known { AreKnown f.ends → AreKnown result.ends }
    ensures flow { (g : F.Flow) → IsFlow f g → IsFlow result (F.counted g) }
{
    let statements = count(f.statements, 1);
    Found { statements, ..f }
}

/// Statements that don't count.
#[tactic(auto, using(crate::proofs::Sequences::sequence_laws))]
pub fn uncounted(f: Found) -> Found
    ensures known { AreKnown f.ends → AreKnown result.ends }
    ensures flow { (g : F.Flow) → IsFlow f g → IsFlow result (record g { statements = 0 }) }
{
    Found { statements: 0, ..f }
}

/// A loop, which a `break` in it ends.
#[tactic(auto, using(crate::proofs::Sequences::sequence_laws))]
pub fn catching_breaks(alloc: Global, f: Found) -> Result<Found, AllocError>
    requires { AreKnown f.ends }
    ensures known { IfOk result (λ r. AreKnown r.ends) }
    ensures flow { IfOk result (λ r. (g : F.Flow) → IsFlow f g → IsFlow r (F.catching O.Break g)) }
{
    let Found {
        reads,
        writes,
        later,
        ends,
        early,
        unset,
        unrolls,
        statements,
    } = f;
    let ends = caught_breaks(alloc, ends)?;
    Ok(Found {
        reads,
        writes,
        later,
        ends,
        early,
        unset,
        unrolls,
        statements,
    })
}

/// A turn of a loop, which a `continue` in it ends.
#[tactic(auto, using(crate::proofs::Sequences::sequence_laws))]
pub fn catching_continues(alloc: Global, f: Found) -> Result<Found, AllocError>
    requires { AreKnown f.ends }
    ensures known { IfOk result (λ r. AreKnown r.ends) }
    ensures flow { IfOk result (λ r. (g : F.Flow) → IsFlow f g → IsFlow r (F.catching O.Continue g)) }
{
    let Found {
        reads,
        writes,
        later,
        ends,
        early,
        unset,
        unrolls,
        statements,
    } = f;
    let ends = caught_continues(alloc, ends)?;
    Ok(Found {
        reads,
        writes,
        later,
        ends,
        early,
        unset,
        unrolls,
        statements,
    })
}

// Whether two spans have a number in common.
fn touches(a: Span, b: Span) -> bool
    ensures { result ≡ spec.touches a b }
{
    a.low.max(b.low) < a.high.min(b.high)
}

// Adds the tokens of those uses that touch a span.
fn add_met(uses: &[Use], s: Span, to: Tokens) -> Result<Tokens, AllocError>
    ensures { IfOk result (λ r. r ≡ to ++ met s uses.now) }
{
    let mut all = to;
    for u in uses {
        if touches(u.span, s) {
            all.push(u.at)?;
        }
    }
    Ok(all)
}

/// A block with a local of so many bits whose start isn't written: where it is read early, it isn't set.
#[tactic(auto, using(crate::proofs::Locals::local_laws))]
pub fn unset_in(local: u32, width: u32, f: Found) -> Result<Found, AllocError>
    ensures known { IfOk result (λ r. AreKnown f.ends → AreKnown r.ends) }
    ensures flow { IfOk result (λ r. (g : F.Flow) (marks : List Bool) → length marks ≡ width → IsFlow f g → IsFlow r (F.unset_in local marks None g)) }
{
    let Found {
        reads,
        writes,
        later,
        ends,
        early,
        unset,
        unrolls,
        statements,
    } = f;
    let unset = add_met(early.as_slice(), local_span(local, width), unset)?;
    Ok(Found {
        reads,
        writes,
        later,
        ends,
        early,
        unset,
        unrolls,
        statements,
    })
}
