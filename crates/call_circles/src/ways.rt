//! Ways by calls, and the test that they are ways.

ghost use Rattle.std.specs.Prelude.{◌≡◌, ℕ, true};
ghost use Rattle.call_circles.specs.Ways as means;

use crate::calls::{Call, is_from};
use sqlite_items::at;

/// A way from a routine to another one by calls.
#[derive(Debug, Clone, Copy, Drop)]
pub struct Way {
    /// The routine that it ends at.
    pub goal: u32,
    /// How many calls it has at most.
    pub steps: u32,
    /// The number of its first call.
    pub by: u32,
}

/// The way from a routine, if it has one.
pub fn way_from(ways: &[Option<Way>], routine: u32) -> Option<Way>
    ensures { result ≡ means.way_from ways.now routine }
{
    match at(ways, routine as usize) {
        None => None,
        Some(way) => *way,
    }
}

// Whether a way goes on by a shorter one.
fn goes_on(way: Way, next: Option<Way>) -> bool
    ensures { result ≡ means.goes_on way next }
{
    match next {
        None => false,
        Some(next) => next.goal == way.goal && next.steps < way.steps,
    }
}

// Whether a way begins with its first call.
fn begins(calls: &[Call], ways: &[Option<Way>], routine: u32, way: Way) -> bool
    ensures { result ≡ means.begins calls.now ways.now routine way }
{
    match at(calls, way.by as usize) {
        None => false,
        Some(call) => is_from(call.from, routine) && goes_on(way, way_from(ways, call.to)),
    }
}

// Whether a way from a routine is one.
fn is_way(calls: &[Call], ways: &[Option<Way>], routine: u32, way: Way) -> bool
    ensures { result ≡ means.is_way calls.now ways.now routine way }
{
    way.steps as usize <= calls.len() && (way.goal == routine || begins(calls, ways, routine, way))
}

// Whether the way from a routine is one.
fn is_way_if(calls: &[Call], ways: &[Option<Way>], routine: u32, way: Option<Way>) -> bool
    ensures { result ≡ means.is_way_if calls.now ways.now routine way }
{
    match way {
        None => true,
        Some(way) => is_way(calls, ways, routine, way),
    }
}

/// Whether all these ways are ways by the calls.
pub fn are_ways(calls: &[Call], ways: &[Option<Way>]) -> bool
    ensures { result ≡ true → means.AreWays calls.now ways.now }
{
    for routine in 0..ways.len() {
        let Ok(number) = u32::try_from(routine) else {
            return false;
        };
        if !is_way_if(calls, ways, number, way_from(ways, number)) {
            return false;
        }
    }
    true
}
