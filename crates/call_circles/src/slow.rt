//! Broken calls by their definition.

ghost use Rattle.std.specs.Prelude.{◌≡◌, ◌||◌, ◌==◌, IfOk};
ghost use Rattle.std.specs.List.{list_any};
ghost use Rattle.call_circles.specs.Calls as means;
ghost use Rattle.call_circles.specs.Rounds as rounds;

use crate::calls::{Call, Need, is_from, lesser_if};
use sqlite_items::Items;
use std::alloc::{AllocError, Global};

// Whether one of the calls stands in a routine.
fn any_in(calls: &[Call], routine: u32) -> bool
    ensures { result ≡ list_any (rounds.stands_in routine) calls.now }
{
    calls.iter().any(|call| is_from(call.from, routine))
}

// The calls that lead to a routine, if those that lead to it in one call less are found.
fn round(
    alloc: Global,
    calls: &[Call],
    found: &[Call],
    goal: u32,
) -> Result<Items<Call>, AllocError>
    ensures { IfOk result (λ cs. cs ≡ rounds.round calls.now found.now goal) }
{
    let all = calls
        .iter()
        .copied()
        .filter(|call| call.to == goal || any_in(found, call.to))
        .collect(alloc)?;
    Ok(Items::from_vec(all))
}

// Whether one routine is another or leads to it.
fn leads_to(alloc: Global, calls: &[Call], routine: u32, goal: u32) -> Result<bool, AllocError>
    ensures { IfOk result (λ b. b ≡ means.leads_to calls.now routine goal) }
{
    let mut found = Items::new(alloc);
    for turn in 0..2 * calls.len() {
        found = round(alloc, calls, found.as_slice(), goal)?;
    }
    let reached = any_in(found.as_slice(), routine);
    Ok(routine == goal || reached)
}

// Whether a call outside routines is early.
fn is_early(alloc: Global, calls: &[Call], needs: &[Need], call: Call) -> Result<bool, AllocError>
    ensures { IfOk result (λ b. b ≡ list_any (means.is_early calls.now call) needs.now) }
{
    for need in needs {
        if call.at <= need.last && leads_to(alloc, calls, call.to, need.routine)? {
            return Ok(true);
        }
    }
    Ok(false)
}

// Whether a call is broken.
fn is_broken(alloc: Global, calls: &[Call], needs: &[Need], call: Call) -> Result<bool, AllocError>
    ensures { IfOk result (λ b. b ≡ means.is_broken calls.now needs.now call) }
{
    match call.from {
        None => is_early(alloc, calls, needs, call),
        Some(routine) => leads_to(alloc, calls, call.to, routine),
    }
}

/// The least token of a broken call, by the definition.
pub fn first_by_rounds(
    alloc: Global,
    calls: &[Call],
    needs: &[Need],
) -> Result<Option<u32>, AllocError>
    ensures { IfOk result (λ r. r ≡ means.first_broken calls.now needs.now) }
{
    let mut first = None;
    let mut at = calls.len();
    while at > 0 {
        at -= 1;
        let call = calls[at];
        let broken = is_broken(alloc, calls, needs, call)?;
        first = lesser_if(broken, call.at, first);
    }
    Ok(first)
}
