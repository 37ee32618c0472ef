//! Guards and offsets of paths that are written (IEEE 1800-2017 clause 7.4.5).

ghost use Rattle.std.specs.Prelude.{◌≡◌, ◌≤◌, None, Some, IfOk};
ghost use Rattle.b4_core.specs.declared.operators.BinOp.TheVariants.{Mul};
ghost use Rattle.v_meaning.specs.Values as means;
ghost use Rattle.v_meaning.specs.Values.{meaning};
ghost use Rattle.lowering_laws.specs.Terms as terms;
ghost use Rattle.path_flatten.specs.Guards.{guard_meaning};
ghost use Rattle.target_flatten.specs.Spots.{IsPlaceIn};
ghost use Rattle.target_flatten.specs.declared.spots.Spot.TheVariants as spots;
ghost use Rattle.target_flatten.specs.Naming.{NamesPlaceIn};

use crate::spots::Spot;
use b4_core::BinOp;
use path_flatten::{Place, Rank, number};
use std::alloc::{AllocError, Global};
use v_build::{binary, both};
use v_tree::VExpr;

/// Two guards as one.
pub(crate) fn joined(
    alloc: Global,
    a: Option<VExpr>,
    b: Option<VExpr>,
) -> Result<Option<VExpr>, AllocError>
    ensures { IfOk result (λ g. guard_meaning g ≡ terms.and_guard (guard_meaning a) (guard_meaning b)) }
{
    match (a, b) {
        (None, b) => Ok(b),
        (Some(a), None) => Ok(Some(a)),
        (Some(a), Some(b)) => {
            let made = both(alloc, a, b)?;
            Ok(Some(made))
        }
    }
}

/// An offset that is moved by so many bits.
fn advanced(alloc: Global, offset: VExpr, below: u32, width: u32) -> Result<VExpr, AllocError>
    ensures { IfOk result (λ e. meaning e ≡ terms.advanced (meaning offset) below width) }
{
    let (offset, below) = pairs::both(Ok(offset), number(alloc, width, below))?;
    let made = binary(alloc, BinOp::Add, offset, below)?;
    Ok(made)
}

/// So many bits for each element below one.
fn product(alloc: Global, rank: VExpr, item: u32, width: u32) -> Result<VExpr, AllocError>
    ensures { IfOk result (λ e. meaning e ≡ means.binary Mul (meaning rank) (terms.number_of_bits width item)) }
{
    let (rank, item) = pairs::both(Ok(rank), number(alloc, width, item))?;
    let made = binary(alloc, BinOp::Mul, rank, item)?;
    Ok(made)
}

/// An offset that is moved by so many items.
fn moved(
    alloc: Global,
    offset: VExpr,
    rank: VExpr,
    item: u32,
    width: u32,
) -> Result<VExpr, AllocError>
    ensures { IfOk result (λ e. meaning e ≡ terms.moved (meaning offset) (meaning rank) item width) }
{
    let (offset, far) = pairs::both(Ok(offset), product(alloc, rank, item, width))?;
    let made = binary(alloc, BinOp::Add, offset, far)?;
    Ok(made)
}

/// The place of an element of so many bits with a rank, by numbers of so many bits.
pub(crate) fn element_place(
    alloc: Global,
    place: Place,
    rank: Rank,
    item: u32,
    width: u32,
) -> Result<Place, AllocError>
    ensures guard { IfOk result (λ p. guard_meaning p.guard ≡ terms.and_guard (guard_meaning place.guard) (guard_meaning rank.guard)) }
    ensures offset { IfOk result (λ p. meaning p.offset ≡ terms.moved (meaning place.offset) (meaning rank.rank) item width) }
{
    let guard = joined(alloc, place.guard, rank.guard);
    let offset = moved(alloc, place.offset, rank.rank, item, width);
    let (guard, offset) = pairs::both(guard, offset)?;
    Ok(Place { guard, offset })
}

/// A place that is moved by so many bits.
fn advanced_place(alloc: Global, place: Place, below: u32, width: u32) -> Result<Place, AllocError>
    ensures guard { IfOk result (λ p. guard_meaning p.guard ≡ guard_meaning place.guard) }
    ensures offset { IfOk result (λ p. meaning p.offset ≡ terms.advanced (meaning place.offset) below width) }
{
    let offset = advanced(alloc, place.offset, below, width);
    let (guard, offset) = pairs::both(Ok(place.guard), offset)?;
    Ok(Place { guard, offset })
}

/// The place of a path so many bits above a place, by numbers of so many bits.
pub(crate) fn moved_place(
    alloc: Global,
    place: Place,
    below: u32,
    width: u32,
) -> Result<Place, AllocError>
    requires narrow { width ≤ 128 }
    ensures place { IfOk result (λ p. IsPlaceIn (spots.Moved place below) width (Some p)) }
    ensures names { IfOk result (λ p. NamesPlaceIn (spots.Moved place below) (Some p)) }
{
    if below == 0 {
        return Ok(place);
    }
    let made = advanced_place(alloc, place, below, width)?;
    Ok(made)
}

/// The place of a path that stands somewhere, by numbers of so many bits.
pub(crate) fn place_in(alloc: Global, spot: Spot, width: u32) -> Result<Option<Place>, AllocError>
    requires narrow { width ≤ 128 }
    ensures place { IfOk result (IsPlaceIn spot width) }
    ensures names { IfOk result (NamesPlaceIn spot) }
{
    match spot {
        Spot::Nowhere => Ok(None),
        Spot::Known(below) => {
            let offset = number(alloc, width, below)?;
            Ok(Some(Place {
                guard: None,
                offset,
            }))
        }
        Spot::Moved { place, below } => {
            let made = moved_place(alloc, place, below, width)?;
            Ok(Some(made))
        }
    }
}
