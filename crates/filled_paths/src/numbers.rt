//! The numbers with which an index of a path names anything (IEEE 1800-2017 clauses 7.4.5 and 11.5.1).

ghost use Rattle.std.specs.Prelude.{◌≤◌, ◌^◌, unsigned_abs};
ghost use Rattle.sv_types.specs.Expressions.{meaning};
ghost use Rattle.filled_paths.specs.Numbers.{AreAround, NamesFrom};

use eval_parts::{Bounds, Step, bounds_of, step_of};
use sv_types::Expr;

/// Numbers from the first one to the last.
#[derive(Clone, Copy)]
pub struct Numbers {
    /// The lowest one.
    pub low: i128,
    /// The highest one.
    pub high: i128,
}

/// The numbers between two bounds, and so many besides on both sides.
fn around(bounds: &Bounds, far: u32) -> Numbers
    ensures around { AreAround result.low result.high bounds.now.left bounds.now.right far }
    ensures low { unsigned_abs result.low ≤ 2 ^ 64 }
    ensures high { unsigned_abs result.high ≤ 2 ^ 64 }
{
    let left = i128::from(bounds.left);
    let right = i128::from(bounds.right);
    let far = i128::from(far);
    if left < right {
        Numbers {
            low: left - far,
            high: right + far,
        }
    } else {
        Numbers {
            low: right - far,
            high: left + far,
        }
    }
}

/// The numbers with which an index of a path names any bit: those between the bounds of what it selects from, and for a part-select
/// of n elements from an index on the n - 1 numbers besides on both sides. The index is the one before which so many stand, from the
/// last step on.
pub fn numbers_at(e: &Expr, at: usize) -> Numbers
    requires narrow { (meaning e.now).widest ≤ 4194304 }
    ensures within { NamesFrom e.now at result }
    ensures low { unsigned_abs result.low ≤ 2 ^ 64 }
    ensures high { unsigned_abs result.high ≤ 2 ^ 64 }
{
    match step_of(e) {
        None => Numbers { low: 0, high: 0 },
        Some(Step::Signal(_)) => Numbers { low: 0, high: 0 },
        Some(Step::Local(_)) => Numbers { low: 0, high: 0 },
        Some(Step::Member(from, _)) => numbers_at(from, at),
        Some(Step::Part { from, .. }) => numbers_at(from, at),
        Some(Step::Index(from, _)) => {
            if at == 0 {
                around(&bounds_of(&from.of), 0)
            } else {
                numbers_at(from, at - 1)
            }
        }
        Some(Step::Slide { from, width, .. }) => {
            if at == 0 {
                let far = width.saturating_sub(1);
                around(&bounds_of(&from.of), far)
            } else {
                numbers_at(from, at - 1)
            }
        }
    }
}
