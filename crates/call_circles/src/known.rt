//! What is known of the routines that calls lead to, and the test that it fits the calls.

ghost use Rattle.std.specs.Prelude.{◌≡◌, true, IfOk};
ghost use Rattle.std.specs.List.{list_all};
ghost use Rattle.call_circles.specs.Calls.{first_of};
ghost use Rattle.call_circles.specs.Known as means;

use crate::calls::{Call, Need, all_turned, lesser_if};
use crate::ways::{Way, are_ways, way_from};
use sqlite_items::{Items, at};
use std::alloc::{AllocError, Global};

/// What is known of the routines that calls lead to.
#[derive(Drop)]
pub struct Known {
    /// From each routine a way to one that stands for all that lead to it and that it leads to.
    pub up: Items<Option<Way>>,
    /// From each routine a way to that one by calls turned round.
    pub down: Items<Option<Way>>,
    /// Of such a one a number that grows along calls.
    pub ranks: Items<u32>,
    /// From each routine a way to the one that has the latest need.
    pub late: Items<Option<Way>>,
    /// Of such a one the number of its latest need.
    pub latest: Items<u32>,
}

// The number of a routine.
fn number_of(numbers: &[u32], routine: u32) -> u32
    ensures { result ≡ means.number_of numbers.now routine }
{
    match at(numbers, routine as usize) {
        None => 0,
        Some(number) => *number,
    }
}

// Whether the first number is missing, or both are there and it isn't greater.
fn at_most(a: Option<u32>, b: Option<u32>) -> bool
    ensures { result ≡ means.at_most a b }
{
    match a {
        None => true,
        Some(a) => match b {
            None => false,
            Some(b) => a <= b,
        },
    }
}

// The end of a need of a routine.
fn last_if(routine: u32, needs: &[Need], number: u32) -> Option<u32>
    ensures { result ≡ means.last_if routine needs.now number }
{
    match at(needs, number as usize) {
        None => None,
        Some(need) => {
            if need.routine == routine {
                Some(need.last)
            } else {
                None
            }
        }
    }
}

// Whether a way leads to a goal.
fn leads_back(goal: u32, way: Option<Way>) -> bool
    ensures { result ≡ means.leads_back goal way }
{
    match way {
        None => false,
        Some(way) => way.goal == goal,
    }
}

impl Known {
    // The end of the latest need that a way leads to.
    fn last_by(&self, needs: &[Need], way: Option<Way>) -> Option<u32>
        ensures { result ≡ means.last_by needs.now self.now way }
    {
        match way {
            None => None,
            Some(way) => last_if(way.goal, needs, number_of(self.latest.as_slice(), way.goal)),
        }
    }

    // The end of the latest need that a routine leads to.
    fn latest(&self, needs: &[Need], routine: u32) -> Option<u32>
        ensures { result ≡ means.latest needs.now self.now routine }
    {
        self.last_by(needs, way_from(self.late.as_slice(), routine))
    }

    // Whether the ways up of a routine and of one that it calls fit.
    fn is_placed(&self, routine: u32, a: Option<Way>, b: Option<Way>) -> bool
        ensures { result ≡ means.is_placed self.now routine a b }
    {
        let (Some(a), Some(b)) = (a, b) else {
            return false;
        };
        if a.goal == b.goal {
            leads_back(a.goal, way_from(self.down.as_slice(), routine))
        } else {
            number_of(self.ranks.as_slice(), a.goal) < number_of(self.ranks.as_slice(), b.goal)
        }
    }

    // Whether a call fits.
    fn fits_call(&self, needs: &[Need], call: Call) -> bool
        ensures { result ≡ means.fits_call needs.now self.now call }
    {
        match call.from {
            None => true,
            Some(routine) => {
                let a = way_from(self.up.as_slice(), routine);
                let b = way_from(self.up.as_slice(), call.to);
                self.is_placed(routine, a, b)
                    && at_most(self.latest(needs, call.to), self.latest(needs, routine))
            }
        }
    }

    // Whether a need fits.
    fn fits_need(&self, needs: &[Need], need: Need) -> bool
        ensures { result ≡ means.fits_need needs.now self.now need }
    {
        at_most(Some(need.last), self.latest(needs, need.routine))
    }

    // Whether all calls fit.
    fn fits_calls(&self, calls: &[Call], needs: &[Need]) -> bool
        ensures { result ≡ list_all (means.fits_call needs.now self.now) calls.now }
    {
        calls.iter().all(|call| self.fits_call(needs, *call))
    }

    // Whether all needs fit.
    fn fits_needs(&self, needs: &[Need]) -> bool
        ensures { result ≡ list_all (means.fits_need needs.now self.now) needs.now }
    {
        needs.iter().all(|need| self.fits_need(needs, *need))
    }

    /// Whether it fits the calls and needs.
    pub fn fits(&self, alloc: Global, calls: &[Call], needs: &[Need]) -> Result<bool, AllocError>
        ensures { IfOk result (λ b. b ≡ true → means.Fits calls.now needs.now self.now) }
    {
        let turned = all_turned(alloc, calls)?;
        Ok(
            are_ways(calls, self.up.as_slice())
                && are_ways(turned.as_slice(), self.down.as_slice())
                && are_ways(calls, self.late.as_slice())
                && self.fits_calls(calls, needs)
                && self.fits_needs(needs),
        )
    }

    // Whether a call is broken, by what is known.
    fn is_broken(&self, needs: &[Need], call: Call) -> bool
        ensures { result ≡ means.is_broken needs.now self.now call }
    {
        match call.from {
            None => at_most(Some(call.at), self.latest(needs, call.to)),
            Some(routine) => {
                let a = way_from(self.up.as_slice(), routine);
                let b = way_from(self.up.as_slice(), call.to);
                match (a, b) {
                    (Some(a), Some(b)) => a.goal == b.goal,
                    _ => false,
                }
            }
        }
    }

    /// The least token of a broken call, by what is known.
    pub fn first_broken(&self, calls: &[Call], needs: &[Need]) -> Option<u32>
        ensures { result ≡ first_of (means.is_broken needs.now self.now) calls.now }
    {
        let mut first = None;
        let mut at = calls.len();
        while at > 0 {
            at -= 1;
            let call = calls[at];
            first = lesser_if(self.is_broken(needs, call), call.at, first);
        }
        first
    }
}
