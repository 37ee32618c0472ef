//! The ways in which paths end.

ghost use Rattle.std.specs.Prelude.{◌≡◌, Some, None, [], IfOk};
ghost use Rattle.flow_sets.specs.Ends as spec;
ghost use Rattle.flow_sets.specs.Ends.{IsKnown, IsAfter, IsThen, IsEither, AreKnown, AreThen, AreEither};

use bit_sets::{Spans, common, joined};
use std::alloc::{AllocError, Global};
use sv_types::Outcome;

/// For each way in which paths end the bits that all of them have written which end so; none where no path ends so.
#[derive(Drop)]
pub struct Ends {
    /// Paths that go on behind the statement.
    pub normal: Option<Spans>,
    /// Paths that end by a `break`.
    pub breaks: Option<Spans>,
    /// Paths that end by a `continue`.
    pub continues: Option<Spans>,
    /// Paths that end by a `return`.
    pub returns: Option<Spans>,
}

// What all paths have written that go on by the second after the first.
#[tactic(auto, using(crate::proofs::Joining::after_laws))]
fn after(
    alloc: Global,
    first: &Option<Spans>,
    then: &Option<Spans>,
) -> Result<Option<Spans>, AllocError>
    requires first { IsKnown first.now }
    requires then { IsKnown then.now }
    ensures { IfOk result (λ r. IsAfter r first.now then.now) }
{
    match first {
        None => Ok(None),
        Some(a) => match then {
            None => Ok(None),
            Some(b) => {
                let both = joined(alloc, a.as_slice(), b.as_slice())?;
                Ok(Some(both))
            }
        },
    }
}

// What all paths have written that end by one or the other.
#[tactic(auto, using(crate::proofs::Joining::either_laws))]
fn either(alloc: Global, a: Option<Spans>, b: Option<Spans>) -> Result<Option<Spans>, AllocError>
    requires a { IsKnown a }
    requires b { IsKnown b }
    ensures { IfOk result (λ r. IsEither r a b) }
{
    match a {
        None => Ok(b),
        Some(s) => match b {
            None => Ok(Some(s)),
            Some(t) => {
                let shared = common(alloc, s.as_slice(), t.as_slice())?;
                Ok(Some(shared))
            }
        },
    }
}

// What all paths have written that end by the second after the first, or ended before.
#[tactic(auto, using(crate::proofs::Joining::then_law))]
fn onward(
    alloc: Global,
    first: &Option<Spans>,
    then: &Option<Spans>,
    before: Option<Spans>,
) -> Result<Option<Spans>, AllocError>
    requires first { IsKnown first.now }
    requires then { IsKnown then.now }
    requires before { IsKnown before }
    ensures { IfOk result (λ r. IsThen r first.now then.now before) }
{
    let both = after(alloc, first, then)?;
    either(alloc, both, before)
}

/// Paths through one statement and then another.
pub fn then_ends(alloc: Global, first: Ends, then: Ends) -> Result<Ends, AllocError>
    requires first { AreKnown first }
    requires then { AreKnown then }
    ensures { IfOk result (λ r. AreThen r first then) }
{
    let Ends {
        normal,
        breaks,
        continues,
        returns,
    } = first;
    let breaks = onward(alloc, &normal, &then.breaks, breaks)?;
    let continues = onward(alloc, &normal, &then.continues, continues)?;
    let returns = onward(alloc, &normal, &then.returns, returns)?;
    let normal = after(alloc, &normal, &then.normal)?;
    Ok(Ends {
        normal,
        breaks,
        continues,
        returns,
    })
}

/// Paths through one of two statements.
pub fn either_ends(alloc: Global, a: Ends, b: Ends) -> Result<Ends, AllocError>
    requires a { AreKnown a }
    requires b { AreKnown b }
    ensures { IfOk result (λ r. AreEither r a b) }
{
    let normal = either(alloc, a.normal, b.normal)?;
    let breaks = either(alloc, a.breaks, b.breaks)?;
    let continues = either(alloc, a.continues, b.continues)?;
    let returns = either(alloc, a.returns, b.returns)?;
    Ok(Ends {
        normal,
        breaks,
        continues,
        returns,
    })
}

/// Paths that go on after a `break`, which ends here.
pub fn caught_breaks(alloc: Global, e: Ends) -> Result<Ends, AllocError>
    requires { AreKnown e }
    ensures normal { IfOk result (λ r. IsEither r.normal e.breaks e.normal) }
    ensures rest { IfOk result (λ r. r ≡ record e { normal = r.normal; breaks = None }) }
{
    let normal = either(alloc, e.breaks, e.normal)?;
    Ok(Ends {
        normal,
        breaks: None,
        continues: e.continues,
        returns: e.returns,
    })
}

/// Paths that go on after a `continue`, which ends here.
pub fn caught_continues(alloc: Global, e: Ends) -> Result<Ends, AllocError>
    requires { AreKnown e }
    ensures normal { IfOk result (λ r. IsEither r.normal e.continues e.normal) }
    ensures rest { IfOk result (λ r. r ≡ record e { normal = r.normal; continues = None }) }
{
    let normal = either(alloc, e.continues, e.normal)?;
    Ok(Ends {
        normal,
        breaks: e.breaks,
        continues: None,
        returns: e.returns,
    })
}

/// Paths that end in one way and have written these bits.
pub fn ending(o: Outcome, written: Spans) -> Ends
    ensures { result ≡ spec.ending o written }
{
    match o {
        Outcome::Normal => Ends {
            normal: Some(written),
            breaks: None,
            continues: None,
            returns: None,
        },
        Outcome::Break => Ends {
            normal: None,
            breaks: Some(written),
            continues: None,
            returns: None,
        },
        Outcome::Continue => Ends {
            normal: None,
            breaks: None,
            continues: Some(written),
            returns: None,
        },
        Outcome::Return => Ends {
            normal: None,
            breaks: None,
            continues: None,
            returns: Some(written),
        },
    }
}
