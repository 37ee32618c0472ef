//! Names with selects as targets (IEEE 1364-2005 clause 9.2).

ghost use Rattle.std.specs.Prelude.{◌≡◌, ◌≤◌, [], ◌∷◌, None, Some, IfOk};
ghost use Rattle.v_tree.specs.declared.expressions.VExtent.TheVariants.{Down};
ghost use Rattle.v_tree.specs.declared.expressions.VSel.TheVariants as sels;
ghost use Rattle.v_tree.specs.declared.statements.VLval.TheVariants as lvals;
ghost use Rattle.v_meaning.specs.Statements.{target, name_target};
ghost use Rattle.v_meaning.specs.Values.{meaning, sel_meaning, decimal_base};
ghost use Rattle.v_build.specs.Trees.{sel_meanings};
ghost use Rattle.lowering_laws.specs.Terms as terms;
ghost use Rattle.path_flatten.specs.Guards.{guard_meaning};
ghost use Rattle.target_flatten.specs.Writing.{select_at, AimsKnown, AimsPlaced, AimsAt};
ghost use Rattle.target_flatten.specs.Naming.{NamesNoOther, NamesAim, NamesAimAt};
ghost use Rattle.target_flatten.specs.Owning.{HasDecimals, IsOwn, IsSelected, OwnAim, PlainAim};

use crate::places::{joined, moved_place};
use crate::spots::Spot;
use crate::writes::Image;
use b4_core::OrdOp;
use path_flatten::{Place, number};
use std::alloc::{AllocError, Global};
use sv_source::{Items, Text};
use v_build::{bit_select, order, slide};
use v_tree::{VExpr, VExtent, VLval, VSel, VSels};

/// A target for all bits of a value, which is written where its guard is 1.
#[derive(Drop)]
pub struct Aim {
    /// The condition, if there is one.
    pub guard: Option<VExpr>,
    /// What is assigned to.
    pub to: VLval,
}

/// A name alone.
fn bare(alloc: Global, name: &Text) -> Result<VLval, AllocError>
    ensures means { IfOk result (λ t. target t ≡ name_target name.now []) }
    ensures is { IfOk result (λ t. t ≡ lvals.Name name.now []) }
{
    let name = name.copy(alloc)?;
    Ok(VLval::Name {
        name,
        sels: Items::from_vec(Vec::new(alloc)),
    })
}

/// `[base]`, by a number.
fn decimal_bit(base: u32) -> VSel
    ensures means { sel_meaning result ≡ decimal_base base None }
    ensures is { result ≡ sels.Decimal base None }
{
    VSel::Decimal { base, extent: None }
}

/// `[left:right]`
fn decimal_part(left: u32, right: u32) -> VSel
    ensures means { sel_meaning result ≡ decimal_base left (Some (Down right)) }
    ensures is { result ≡ sels.Decimal left (Some (Down right)) }
{
    VSel::Decimal {
        base: left,
        extent: Some(VExtent::Down(right)),
    }
}

/// One select.
fn one_select(alloc: Global, sel: VSel) -> Result<VSels, AllocError>
    ensures means { IfOk result (λ ss. sel_meanings ss ≡ sel_meaning sel ∷ []) }
    ensures is { IfOk result (λ ss. ss ≡ sel ∷ []) }
{
    let mut sels: VSels = Items::from_vec(Vec::new(alloc));
    sels.push(sel)?;
    Ok(sels)
}

/// A name with one select.
fn selected(alloc: Global, name: &Text, sel: VSel) -> Result<VLval, AllocError>
    ensures means { IfOk result (λ t. target t ≡ name_target name.now (sel_meaning sel ∷ [])) }
    ensures is { IfOk result (λ t. t ≡ lvals.Name name.now (sel ∷ [])) }
{
    let (sels, name) = pairs::both(one_select(alloc, sel), name.copy(alloc))?;
    Ok(VLval::Name { name, sels })
}

/// So many bits of a name of so many bits, from a known one on. Or want of memory.
pub fn known_target(
    alloc: Global,
    name: &Text,
    bits: u32,
    low: u32,
    n: u32,
) -> Result<VLval, AllocError>
    ensures aims { IfOk result (AimsKnown bits low n) }
    ensures names { IfOk result NamesNoOther }
    ensures own { IfOk result (IsOwn name.now bits) }
    ensures plain { IfOk result (HasDecimals name.now) }
{
    if bits == 1 || n == bits {
        let made = bare(alloc, name)?;
        Ok(made)
    } else if n == 1 {
        let made = selected(alloc, name, decimal_bit(low))?;
        Ok(made)
    } else {
        let left = low.saturating_add(n.saturating_sub(1));
        let made = selected(alloc, name, decimal_part(left, low))?;
        Ok(made)
    }
}

/// The condition that an offset of so many bits is 0.
fn is_first(alloc: Global, offset: VExpr, width: u32) -> Result<VExpr, AllocError>
    ensures { IfOk result (λ e. meaning e ≡ terms.at_most (meaning offset) width 0) }
{
    let (offset, zero) = pairs::both(Ok(offset), number(alloc, width, 0))?;
    let made = order(alloc, OrdOp::LessEqual, offset, zero)?;
    Ok(made)
}

/// A name of one bit, which has no selects, where an offset of so many bits is 0.
fn only_bit(alloc: Global, name: &Text, place: Place, width: u32) -> Result<Aim, AllocError>
    ensures guard { IfOk result (λ x. guard_meaning x.guard ≡ terms.and_guard (guard_meaning place.guard) (Some (terms.at_most (meaning place.offset) width 0))) }
    ensures to { IfOk result (λ x. target x.to ≡ name_target name.now []) }
    ensures is { IfOk result (λ x. x.to ≡ lvals.Name name.now []) }
{
    let first = is_first(alloc, place.offset, width);
    let (guard, first) = pairs::both(Ok(place.guard), first)?;
    let guard = joined(alloc, guard, Some(first));
    let (guard, to) = pairs::both(guard, bare(alloc, name))?;
    Ok(Aim { guard, to })
}

/// A select of so many bits from an offset on.
fn offset_select(alloc: Global, offset: VExpr, n: u32) -> Result<VSel, AllocError>
    ensures { IfOk result (λ s. sel_meaning s ≡ select_at (meaning offset) n) }
{
    if n == 1 {
        let made = bit_select(alloc, offset)?;
        Ok(made)
    } else {
        let made = slide(alloc, offset, n)?;
        Ok(made)
    }
}

/// So many bits of a name, from an offset on.
fn offset_target(alloc: Global, name: &Text, offset: VExpr, n: u32) -> Result<VLval, AllocError>
    ensures means { IfOk result (λ t. target t ≡ name_target name.now (select_at (meaning offset) n ∷ [])) }
    ensures is { IfOk result (IsSelected name.now (select_at (meaning offset) n)) }
{
    let sel = offset_select(alloc, offset, n)?;
    let made = selected(alloc, name, sel)?;
    Ok(made)
}

/// So many bits of a name, from a place on.
fn placed_target(alloc: Global, name: &Text, place: Place, n: u32) -> Result<Aim, AllocError>
    ensures guard { IfOk result (λ x. guard_meaning x.guard ≡ guard_meaning place.guard) }
    ensures to { IfOk result (λ x. target x.to ≡ name_target name.now (select_at (meaning place.offset) n ∷ [])) }
    ensures is { IfOk result (λ x. IsSelected name.now (select_at (meaning place.offset) n) x.to) }
{
    let to = offset_target(alloc, name, place.offset, n);
    let (guard, to) = pairs::both(Ok(place.guard), to)?;
    Ok(Aim { guard, to })
}

/// So many bits of an image, from a place on.
pub(crate) fn aim_at_place(
    alloc: Global,
    image: &Image,
    place: Place,
    n: u32,
) -> Result<Aim, AllocError>
    ensures aims { IfOk result (AimsPlaced image.now.bits place n image.now.room) }
    ensures names { IfOk result (NamesAim place) }
    ensures own { IfOk result (λ x. IsOwn image.now.name image.now.bits x.to) }
{
    if image.bits == 1 {
        let made = only_bit(alloc, &image.name, place, image.room)?;
        Ok(made)
    } else {
        let made = placed_target(alloc, &image.name, place, n)?;
        Ok(made)
    }
}

/// So many bits of an image, from where a path stands on, or none where it stands nowhere. Or want of memory.
pub fn aim_at(alloc: Global, image: &Image, spot: Spot, n: u32) -> Result<Option<Aim>, AllocError>
    requires room { image.now.room ≤ 128 }
    ensures aims { IfOk result (AimsAt image.now.bits spot n image.now.room) }
    ensures names { IfOk result (NamesAimAt spot) }
    ensures own { IfOk result (OwnAim image.now.name image.now.bits) }
    ensures plain { IfOk result (PlainAim image.now.name spot) }
{
    match spot {
        Spot::Nowhere => Ok(None),
        Spot::Known(below) => {
            let to = known_target(alloc, &image.name, image.bits, below, n)?;
            Ok(Some(Aim { guard: None, to }))
        }
        Spot::Moved { place, below } => {
            let place = moved_place(alloc, place, below, image.room)?;
            let made = aim_at_place(alloc, image, place, n)?;
            Ok(Some(made))
        }
    }
}
