//! Where select paths and their elements stand, step by step.

ghost use Rattle.std.specs.Prelude.{◌≤◌, Some, IfOk};
ghost use Rattle.sv_types.specs.Layouts.{width_of};
ghost use Rattle.sv_types.specs.Expressions.{meaning};
ghost use Rattle.target_walk.specs.Giving.{AllSmall, IsClose, IsCloseIf, given_of, given_if};
ghost use Rattle.target_walk.specs.Owning.{SteadyAt, SteadyChosen, SteadyElement, SteadyMember};
ghost use Rattle.target_walk.specs.Walking.{StandsAt, Chooses, ChoosesFrom, IsMemberFrom};

use crate::given::{Element, Given, element_of, gone_on, kept};
use eval_parts::{Step, step_of};
use std::alloc::{AllocError, Global};
use sv_types::{Expr, SvType};
use target_flatten::{Spot, element_spot, index_spot, member_spot, whole_spot};

/// The element with an index of what stands somewhere and has this type.
fn element_in(
    alloc: Global,
    spot: Spot,
    of: &SvType,
    given: Element<'_>,
    room: u32,
) -> Result<Spot, AllocError>
    requires narrow { width_of of.now ≤ 4194304 }
    requires room { room ≤ 128 }
    requires close { IsClose (given_of given) }
    ensures chooses { IfOk result (Chooses spot of.now (Some (given_of given.entry)) room) }
    ensures steady { IfOk result (SteadyElement spot (given_of given.entry)) }
{
    match given {
        Element::Known(k) => Ok(element_spot(spot, of, Some(k))),
        Element::Lowered(index, by) => index_spot(alloc, spot, of, index, by, room),
    }
}

/// The same if one is asked for, or all of what stands somewhere.
fn chosen(
    alloc: Global,
    spot: Result<Spot, AllocError>,
    of: &SvType,
    given: Option<Element<'_>>,
    room: u32,
) -> Result<Spot, AllocError>
    requires narrow { width_of of.now ≤ 4194304 }
    requires room { room ≤ 128 }
    requires close { IsCloseIf (given_if given) }
    ensures chooses { IfOk result (ChoosesFrom spot of.now (given_if given.entry) room) }
    ensures steady { IfOk result (SteadyChosen spot (given_if given.entry)) }
{
    match given {
        None => spot,
        Some(given) => element_in(alloc, spot?, of, given, room),
    }
}

/// A member of what stands somewhere and has this type.
fn member(spot: Result<Spot, AllocError>, of: &SvType, k: u32) -> Result<Spot, AllocError>
    requires narrow { width_of of.now ≤ 4194304 }
    ensures member { IfOk result (IsMemberFrom spot of.now k) }
    ensures steady { IfOk result (SteadyMember spot) }
{
    let spot = spot?;
    Ok(member_spot(spot, of, k))
}

/// Where a path stands that is no part-select, or where the element of a path with an index does. Indices are the last step's
/// first.
pub(crate) fn spot_at(
    alloc: Global,
    e: &Expr,
    indices: &[Given],
    given: Option<Element<'_>>,
    room: u32,
) -> Result<Spot, AllocError>
    requires narrow { (meaning e.now).widest ≤ 4194304 }
    requires room { room ≤ 128 }
    requires small { AllSmall indices.now }
    requires close { IsCloseIf (given_if given) }
    ensures stands { IfOk result (StandsAt e.now indices.now (given_if given.entry) room) }
    ensures steady { IfOk result (SteadyAt indices.now (given_if given.entry)) }
{
    match step_of(e) {
        None => Ok(Spot::Nowhere),
        Some(Step::Signal(_)) => chosen(alloc, Ok(whole_spot()), &e.of, given, room),
        Some(Step::Local(_)) => chosen(alloc, Ok(whole_spot()), &e.of, given, room),
        Some(Step::Member(from, k)) => {
            let spot = member(spot_at(alloc, from, indices, None, room), &from.of, k);
            chosen(alloc, spot, &e.of, given, room)
        }
        Some(Step::Index(from, _)) => match indices.split_first() {
            None => Ok(Spot::Nowhere),
            Some((last, rest)) => match element_of(last) {
                None => chosen(alloc, Ok(Spot::Nowhere), &e.of, given, room),
                Some(inner) => {
                    let spot = spot_at(alloc, from, rest, Some(inner), room);
                    chosen(alloc, spot, &e.of, given, room)
                }
            },
        },
        Some(Step::Part { from, left, right }) => match given {
            None => Ok(Spot::Nowhere),
            Some(given) => match kept(given, left, right) {
                None => Ok(Spot::Nowhere),
                Some(inner) => spot_at(alloc, from, indices, Some(inner), room),
            },
        },
        Some(
            Step::Slide {
                from,
                base: _base,
                width,
                up,
            },
        ) => match indices.split_first() {
            None => Ok(Spot::Nowhere),
            Some((base, rest)) => match given {
                None => Ok(Spot::Nowhere),
                Some(given) => match gone_on(given, base, &from.of, up, width) {
                    None => Ok(Spot::Nowhere),
                    Some(inner) => spot_at(alloc, from, rest, Some(inner), room),
                },
            },
        },
    }
}
