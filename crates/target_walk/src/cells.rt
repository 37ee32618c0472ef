//! Part-selects that are written element by element (IEEE 1800-2017 clause 11.5.1).

ghost use Rattle.std.specs.Prelude.{◌≡◌, ◌≤◌, ◌^◌, unsigned_abs, true, Some, IfOk, OnOk};
ghost use Rattle.sv_types.specs.Expressions.{meaning};
ghost use Rattle.target_flatten.specs.Owning.{AllOwn};
ghost use Rattle.target_walk.specs.Giving.{AllSmall};
ghost use Rattle.target_walk.specs.Cells.{AddsCell, AddsElement, HasRankIn, counts_at_most};
ghost use Rattle.target_walk.specs.declared.given.Given.TheVariants as givens;
ghost use Rattle.target_walk.specs.Owning.{KeepsOwn, KeepsPlain, KeepsPlainOf, PlainOf, SteadyAt};
ghost use Rattle.target_walk.specs.Walking.{StandsAt, WritesAs};

use crate::given::{Element, Given};
use crate::standing::spot_at;
use eval_parts::{Bounds, bounds_of};
use std::alloc::{AllocError, Global};
use sv_types::Expr;
use target_flatten::{Image, Spot, Write, Writes, aim_at};

/// The index of the element above so many others.
fn index_above(bounds: &Bounds, t: u32) -> i128
    ensures rank { HasRankIn bounds.now t result }
    ensures small { unsigned_abs result ≤ 2 ^ 64 }
{
    let right = i128::from(bounds.right);
    if bounds.right <= bounds.left {
        right + i128::from(t)
    } else {
        right - i128::from(t)
    }
}

/// How many elements there are between bounds; at most 2^22 are looked at.
fn count_in(bounds: &Bounds) -> u32
    ensures { result ≡ counts_at_most bounds.now.left bounds.now.right }
{
    let far = (i128::from(bounds.left) - i128::from(bounds.right)).unsigned_abs();
    far.min(4194303) as u32 + 1
}

/// One target more, for so many bits of a value from bit `low` on, where a path of these bits stands somewhere.
fn add_cell(
    alloc: Global,
    image: &Image,
    spot: Spot,
    low: u32,
    n: u32,
    writes: &mut Writes,
) -> Result<(), AllocError>
    requires room { image.now.room ≤ 128 }
    ensures adds { OnOk result (AddsCell image.now spot low n writes.old writes.new) }
    ensures own { OnOk result (KeepsOwn image.now writes.old writes.new) }
    ensures plain { OnOk result (KeepsPlain image.now spot writes.old writes.new) }
{
    if let Some(aim) = aim_at(alloc, image, spot, n)? {
        writes.push(Write {
            guard: aim.guard,
            to: aim.to,
            low,
            width: n,
        })?;
    }
    Ok(())
}

/// Where the element of a path with a known index stands.
fn element_place(
    alloc: Global,
    e: &Expr,
    indices: &[Given],
    k: i128,
    room: u32,
) -> Result<Spot, AllocError>
    requires narrow { (meaning e.now).widest ≤ 4194304 }
    requires room { room ≤ 128 }
    requires small { AllSmall indices.now }
    requires near { unsigned_abs k ≤ 2 ^ 64 }
    ensures stands { IfOk result (StandsAt e.now indices.now (Some (givens.Known (Some k))) room) }
    ensures steady { IfOk result (SteadyAt indices.now (Some (givens.Known (Some k)))) }
{
    spot_at(alloc, e, indices, Some(Element::Known(k)), room)
}

/// One target more, for the element of a path with a known index, of so many bits.
fn add_element(
    alloc: Global,
    image: &Image,
    e: &Expr,
    indices: &[Given],
    k: i128,
    low: u32,
    n: u32,
    writes: &mut Writes,
) -> Result<(), AllocError>
    requires narrow { (meaning e.now).widest ≤ 4194304 }
    requires room { image.now.room ≤ 128 }
    requires small { AllSmall indices.now }
    requires near { unsigned_abs k ≤ 2 ^ 64 }
    ensures adds { OnOk result (AddsElement image.now e.now indices.now k low n writes.old writes.new) }
    ensures own { OnOk result (KeepsOwn image.now writes.old writes.new) }
    ensures plain { OnOk result (KeepsPlainOf image.now indices.now writes.old writes.new) }
{
    let spot = element_place(alloc, e, indices, k, image.room)?;
    add_cell(alloc, image, spot, low, n, writes)
}

/// What is written of a part-select, its lowest element first.
pub(crate) fn cells(
    alloc: Global,
    image: &Image,
    e: &Expr,
    indices: &[Given],
) -> Result<Writes, AllocError>
    requires narrow { (meaning e.now).widest ≤ 4194304 }
    requires room { image.now.room ≤ 128 }
    requires small { AllSmall indices.now }
    ensures writes { IfOk result (WritesAs image.now e.now indices.now true) }
    ensures own { IfOk result (AllOwn image.now.name image.now.bits) }
    ensures plain { IfOk result (PlainOf image.now indices.now) }
{
    let bounds = bounds_of(&e.of);
    let mut writes: Writes = Writes::new(alloc);
    let mut low: u32 = 0;
    for t in 0..count_in(&bounds) {
        let k = index_above(&bounds, t);
        add_element(
            alloc,
            image,
            e,
            indices,
            k,
            low,
            bounds.element,
            &mut writes,
        )?;
        low = low.saturating_add(bounds.element);
    }
    Ok(writes)
}
