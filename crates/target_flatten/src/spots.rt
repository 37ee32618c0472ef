//! Where the bits of a select path stand in the vector that holds what the path stands on (IEEE 1800-2017 clauses 7.2.1 and 7.4.5).
//! A path that no part-select is part of has all of its bits in range, or none.

ghost use Rattle.std.specs.Prelude.{◌≡◌, ◌≤◌, ◌^◌, unsigned_abs, IfSome};
ghost use Rattle.sv_types.specs.Layouts.{width_of};
ghost use Rattle.target_flatten.specs.Spots.{StandsWhole, StandsInside, Narrows, SpotsMember, SpotsElement};
ghost use Rattle.target_flatten.specs.Naming.{NamesOn, NamesNothing};
ghost use Rattle.target_flatten.specs.Owning.{IsSteady, StaysSteady};

use eval_parts::{Window, element_at, entire, member_at};
use path_flatten::Place;
use sv_types::{SvType, width};

/// Where a path stands in the image of what it stands on.
#[derive(Drop)]
pub enum Spot {
    /// Nowhere: all of its bits are out of range.
    Nowhere,
    /// From a known bit on.
    Known(u32),
    /// From so many bits above a place on.
    Moved {
        /// The place.
        place: Place,
        /// How many bits of it lie below the path.
        below: u32,
    },
}

/// All of an image.
pub fn whole_spot() -> Spot
    ensures stands { StandsWhole result }
    ensures names { NamesNothing result }
    ensures steady { IsSteady result }
{
    Spot::Known(0)
}

/// Some bits of a path, from this one on.
pub(crate) fn inside(spot: Spot, low: u32) -> Spot
    ensures stands { StandsInside spot low result }
    ensures names { NamesOn spot result }
    ensures steady { StaysSteady spot result }
{
    match spot {
        Spot::Nowhere => Spot::Nowhere,
        Spot::Known(below) => Spot::Known(below.saturating_add(low)),
        Spot::Moved { place, below } => Spot::Moved {
            place,
            below: below.saturating_add(low),
        },
    }
}

/// The bits of a path that a window of its type names, all of them or none.
fn narrowed(spot: Spot, inner: Window) -> Spot
    ensures stands { Narrows spot inner result }
    ensures names { NamesOn spot result }
    ensures steady { StaysSteady spot result }
{
    if inner.high <= inner.low {
        return Spot::Nowhere;
    }
    inside(spot, inner.low)
}

/// The member with a number, of what has this type.
pub fn member_spot(spot: Spot, of: &SvType, k: u32) -> Spot
    requires narrow { width_of of.now ≤ 4194304 }
    ensures stands { SpotsMember spot of.now k result }
    ensures names { NamesOn spot result }
    ensures steady { StaysSteady spot result }
{
    narrowed(spot, member_at(of, k, entire(width(of))))
}

/// The element with a known index, or with one that has x or z; of what has this type.
pub fn element_spot(spot: Spot, of: &SvType, index: Option<i128>) -> Spot
    requires narrow { width_of of.now ≤ 4194304 }
    requires index { IfSome index (λ k. unsigned_abs k ≤ 2 ^ 65) }
    ensures stands { SpotsElement spot of.now index result }
    ensures names { NamesOn spot result }
    ensures steady { StaysSteady spot result }
{
    narrowed(spot, element_at(of, index, entire(width(of))))
}
