//! How many bits offsets and ranks need along a path.

ghost use Rattle.std.specs.Prelude.{◌≤◌, ◌<◌, ◌+◌, ◌^◌};
ghost use Rattle.sv_types.specs.Expressions.{meaning};
ghost use Rattle.target_walk.specs.Giving.{AllSmall, IsSmall};
ghost use Rattle.target_walk.specs.Rooms.{GivesRoom, MakesRoom};

use crate::given::Given;
use eval_parts::{Bounds, Step, bounds_of, step_of};
use sv_types::Expr;

/// So many bits that an unsigned number fits them.
#[tactic(auto, using(crate::proofs::Doubling::powers))]
fn bits_for(n: u128) -> u32
    requires { n < 2 ^ 67 }
    ensures fits { n < 2 ^ result }
    ensures few { result ≤ 67 }
{
    let mut power: u128 = 1;
    for bits in 0..67 {
        if n < power {
            return bits;
        }
        power *= 2;
    }
    67
}

/// How many bits an index needs, moved by at most `n`, of what has these bounds.
fn step_room(bounds: &Bounds, given: &Given, n: u32) -> u32
    requires small { IsSmall given.now }
    ensures room { GivesRoom bounds.now given.now n result }
    ensures few { result ≤ 68 }
{
    match given {
        Given::Known(_) => 0,
        Given::Lowered { index, by } => {
            let left = u128::from(bounds.left.unsigned_abs());
            let right = u128::from(bounds.right.unsigned_abs());
            let far = left.max(right) + by.unsigned_abs() + u128::from(n) + 1;
            (index.width + 1).max(bits_for(far) + 1)
        }
    }
}

/// How many bits the indices of a path need.
fn indices_room(e: &Expr, indices: &[Given]) -> u32
    requires narrow { (meaning e.now).widest ≤ 4194304 }
    requires small { AllSmall indices.now }
    ensures room { MakesRoom e.now indices.now result }
    ensures few { result ≤ 68 }
{
    match step_of(e) {
        None => 0,
        Some(Step::Signal(_)) => 0,
        Some(Step::Local(_)) => 0,
        Some(Step::Member(from, _)) => indices_room(from, indices),
        Some(Step::Index(from, _)) => match indices.split_first() {
            None => 0,
            Some((last, rest)) => {
                let own = step_room(&bounds_of(&from.of), last, 0);
                own.max(indices_room(from, rest))
            }
        },
        Some(Step::Part { from, .. }) => indices_room(from, indices),
        Some(Step::Slide { from, width, .. }) => match indices.split_first() {
            None => 0,
            Some((last, rest)) => {
                let own = step_room(&bounds_of(&from.of), last, width);
                own.max(indices_room(from, rest))
            }
        },
    }
}

/// How many bits offsets and ranks need for a path with these indices in an image of so many bits.
pub fn room_of(e: &Expr, indices: &[Given], bits: u32) -> u32
    requires narrow { (meaning e.now).widest ≤ 4194304 }
    requires small { AllSmall indices.now }
    ensures room { MakesRoom e.now indices.now result }
    ensures image { bits < 2 ^ result }
    ensures few { result ≤ 128 }
    ensures some { 1 ≤ result }
{
    indices_room(e, indices).max(bits_for(u128::from(bits)) + 1)
}
