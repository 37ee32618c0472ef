//! Calls of functions and tasks in circles, and calls before what they need is declared.
//!
//! `first_broken` gives the first broken call, in the sense of `specs/Calls.antt`. What it knows of circles is searched for
//! without a promise and then checked against the calls. If the check failed, each call would be looked at by the definition.
#![tactic(auto)]

mod calls;
mod known;
mod search;
mod slow;
mod ways;

ghost use Rattle.std.specs.Prelude.{◌≡◌, IfOk};
ghost use Rattle.call_circles.specs.Calls as means;

pub use calls::{Call, Need};
use search::known_of;
use std::alloc::{AllocError, Global};

/// The least token of a broken call, if there is one: of a call that leads back to the routine that it stands in, or of one
/// outside routines that leads to a need whose declaration doesn't end before it. An error where memory runs out. Where
/// all numbers of routines are below `routines` the steps are about linear in their number, the calls and the needs; no
/// clause says so.
pub fn first_broken(
    alloc: Global,
    routines: u32,
    calls: &[Call],
    needs: &[Need],
) -> Result<Option<u32>, AllocError>
    ensures { IfOk result (λ r. r ≡ means.first_broken calls.now needs.now) }
{
    let known = known_of(alloc, routines, calls, needs)?;
    if known.fits(alloc, calls, needs)? {
        return Ok(known.first_broken(calls, needs));
    }
    slow::first_by_rounds(alloc, calls, needs)
}
