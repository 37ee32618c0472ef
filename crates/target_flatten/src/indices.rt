//! Elements by an index that is known only when the text runs (IEEE 1800-2017 clause 7.4.5).

ghost use Rattle.std.specs.Prelude.{◌≡◌, ◌≤◌, ◌<◌, ◌+◌, ◌^◌, unsigned_abs, int_le, int_lt, pos, true, false, Some, None, [], ◌∷◌, IfOk};
ghost use Rattle.b4_core.specs.declared.bit.Bit4.TheVariants.{Zero};
ghost use Rattle.sv_types.specs.Layouts.{width_of};
ghost use Rattle.v_meaning.specs.Values as means;
ghost use Rattle.v_meaning.specs.Values.{meaning};
ghost use Rattle.lowering_laws.specs.Terms as terms;
ghost use Rattle.path_flatten.specs.Guards.{guard_meaning};
ghost use Rattle.path_flatten.specs.Distances.{distance_term};
ghost use Rattle.path_flatten.specs.Sliding.{IsSignedIndex};
ghost use Rattle.path_flatten.specs.Naming.{NamesLike};
ghost use Rattle.target_flatten.specs.Spots.{RanksBetween, RanksNumber, RanksMoved, RanksShort, IsLast, SpotsIndex, SpotsPlaced};
ghost use Rattle.target_flatten.specs.Naming.{NamesRank, NamesRankOf, NamesAdded};

use crate::places::{element_place, place_in};
use crate::spots::Spot;
use b4_core::{BinOp, Bit4, OrdOp, Vec4};
use eval_parts::{Bounds, bounds_of};
use path_flatten::{Index, Place, Rank, bound, braced, copy_expr, free_rank, guarded_rank};
use std::alloc::{AllocError, Global};
use sv_source::Items;
use sv_types::SvType;
use v_build::{binary, both, concatenation, literal, order, signing};
use v_tree::{VExpr, VExprs};

/// A one-bit 0.
fn zero_bit(alloc: Global) -> Result<VExpr, AllocError>
    ensures { IfOk result (λ m. meaning m ≡ means.literal (Zero ∷ [])) }
{
    let bits = Vec4::from_slice(alloc, &[Bit4::Zero])?;
    Ok(literal(bits))
}

/// A copy of an expression with a 0 above it.
fn zero_above(alloc: Global, e: &VExpr) -> Result<VExpr, AllocError>
    ensures { IfOk result (λ m. meaning m ≡ means.concatenation (means.literal (Zero ∷ []) ∷ meaning e.now ∷ [])) }
{
    let mut items: VExprs = Items::from_vec(Vec::new(alloc));
    items.push(zero_bit(alloc)?)?;
    items.push(copy_expr(alloc, e)?)?;
    Ok(concatenation(items))
}

/// An index as a signed number, which has one bit more at most.
fn number_of(alloc: Global, index: &Index) -> Result<VExpr, AllocError>
    ensures number { IfOk result (λ m. IsSignedIndex index.now (meaning m) (index.now.width + 1)) }
    ensures names { IfOk result (λ m. NamesLike (meaning index.now.expr) (meaning m)) }
{
    if index.signed {
        let copy = copy_expr(alloc, &index.expr)?;
        Ok(copy)
    } else {
        let made = zero_above(alloc, &index.expr)?;
        Ok(made)
    }
}

/// `$signed(number)`
fn signed_copy(alloc: Global, number: &VExpr) -> Result<VExpr, AllocError>
    ensures { IfOk result (λ e. meaning e ≡ means.signing true (meaning number.now)) }
{
    let copy = copy_expr(alloc, number)?;
    let made = signing(alloc, true, copy)?;
    Ok(made)
}

/// A comparison of a signed number with a bound, by numbers of so many bits.
fn compared(
    alloc: Global,
    op: OrdOp,
    number: &VExpr,
    width: u32,
    n: i128,
) -> Result<VExpr, AllocError>
    requires { width ≤ 128 }
    ensures { IfOk result (λ e. meaning e ≡ means.order op (means.signing true (meaning number.now)) (terms.bound width n)) }
{
    let left = signed_copy(alloc, number);
    let (left, right) = pairs::both(left, bound(alloc, width, n))?;
    let made = order(alloc, op, left, right)?;
    Ok(made)
}

/// The condition that a signed number lies between two bounds, both included.
fn between(
    alloc: Global,
    number: &VExpr,
    width: u32,
    low: i128,
    high: i128,
) -> Result<VExpr, AllocError>
    requires { width ≤ 128 }
    ensures { IfOk result (λ e. meaning e ≡ terms.between (means.signing true (meaning number.now)) width low high) }
{
    let above = compared(alloc, OrdOp::GreaterEqual, number, width, low);
    let below = compared(alloc, OrdOp::LessEqual, number, width, high);
    let (above, below) = pairs::both(above, below)?;
    let made = both(alloc, above, below)?;
    Ok(made)
}

/// How far a signed number lies above a bound, or under it.
fn far(
    alloc: Global,
    number: &VExpr,
    is_above: bool,
    width: u32,
    n: i128,
) -> Result<VExpr, AllocError>
    requires { width ≤ 128 }
    ensures { IfOk result (λ e. meaning e ≡ distance_term is_above (means.signing true (meaning number.now)) width n) }
{
    let number = signed_copy(alloc, number);
    let (number, end) = pairs::both(number, bound(alloc, width, n))?;
    if is_above {
        let difference = binary(alloc, BinOp::Sub, number, end)?;
        let made = braced(alloc, difference)?;
        Ok(made)
    } else {
        let difference = binary(alloc, BinOp::Sub, end, number)?;
        let made = braced(alloc, difference)?;
        Ok(made)
    }
}

/// The rank of a signed number between bounds that fall: how far it lies above the right one.
fn falling_rank(
    alloc: Global,
    number: &VExpr,
    width: u32,
    left: i128,
    right: i128,
) -> Result<Rank, AllocError>
    requires { width ≤ 128 }
    ensures guard { IfOk result (λ r. guard_meaning r.guard ≡ Some (terms.between (means.signing true (meaning number.now)) width right left)) }
    ensures rank { IfOk result (λ r. meaning r.rank ≡ distance_term true (means.signing true (meaning number.now)) width right) }
{
    let guard = between(alloc, number, width, right, left);
    let (guard, rank) = pairs::both(guard, far(alloc, number, true, width, right))?;
    Ok(Rank {
        guard: Some(guard),
        rank,
    })
}

/// The rank of one between bounds that rise: how far it lies under the right one.
fn rising_rank(
    alloc: Global,
    number: &VExpr,
    width: u32,
    left: i128,
    right: i128,
) -> Result<Rank, AllocError>
    requires { width ≤ 128 }
    ensures guard { IfOk result (λ r. guard_meaning r.guard ≡ Some (terms.between (means.signing true (meaning number.now)) width left right)) }
    ensures rank { IfOk result (λ r. meaning r.rank ≡ distance_term false (means.signing true (meaning number.now)) width right) }
{
    let guard = between(alloc, number, width, left, right);
    let (guard, rank) = pairs::both(guard, far(alloc, number, false, width, right))?;
    Ok(Rank {
        guard: Some(guard),
        rank,
    })
}

/// The rank of a signed number between a left and a right bound.
fn rank_between(
    alloc: Global,
    number: &VExpr,
    width: u32,
    left: i128,
    right: i128,
) -> Result<Rank, AllocError>
    requires { width ≤ 128 }
    ensures ranked { IfOk result (RanksNumber (meaning number.now) width left right) }
    ensures names { IfOk result (NamesRank (meaning number.now)) }
{
    if right <= left {
        let made = falling_rank(alloc, number, width, left, right)?;
        Ok(made)
    } else {
        let made = rising_rank(alloc, number, width, left, right)?;
        Ok(made)
    }
}

/// The rank of an index between two bounds, by numbers of so many bits.
fn bounded_rank(
    alloc: Global,
    index: &Index,
    width: u32,
    left: i128,
    right: i128,
) -> Result<Rank, AllocError>
    requires { width ≤ 128 }
    ensures ranked { IfOk result (RanksBetween index.now width left right) }
    ensures names { IfOk result (NamesRankOf index.now) }
{
    let number = number_of(alloc, index)?;
    let made = rank_between(alloc, &number, width, left, right)?;
    Ok(made)
}

/// 2 to a power of at most 100.
#[tactic(auto, using(crate::proofs::Powers::powers))]
fn power_of_two(n: u32) -> u128
    requires { n ≤ 100 }
    ensures value { result ≡ 2 ^ n }
    ensures small { result ≤ 2 ^ 100 }
{
    let mut power: u128 = 1;
    for _i in 0..n {
        power *= 2;
    }
    power
}

/// The rank of an unsigned index of an array `[last:0]`.
fn short_rank(alloc: Global, index: &Index, last: u32) -> Result<Rank, AllocError>
    requires narrow { index.now.width ≤ 100 }
    requires unsigned { index.now.signed ≡ false }
    ensures ranked { IfOk result (RanksShort index.now last) }
    ensures names { IfOk result (NamesRankOf index.now) }
{
    if power_of_two(index.width) <= u128::from(last) + 1 {
        let made = free_rank(alloc, &index.expr)?;
        Ok(made)
    } else {
        let made = guarded_rank(alloc, &index.expr, index.width, last)?;
        Ok(made)
    }
}

/// The last index of an array `[last:0]`, if its bounds are such.
fn last_of(bounds: &Bounds) -> Option<u32>
    ensures { IsLast bounds.now.left bounds.now.right result }
{
    if bounds.right != 0 {
        return None;
    }
    if bounds.left < 0 {
        return None;
    }
    if bounds.left > 4194304 {
        return None;
    }
    Some(bounds.left as u32)
}

/// The rank of an index of a type that is moved so far, by numbers of so many bits.
fn rank_of(
    alloc: Global,
    index: &Index,
    of: &SvType,
    by: i128,
    width: u32,
) -> Result<Rank, AllocError>
    requires narrow { width_of of.now ≤ 4194304 }
    requires index { index.now.width ≤ 100 }
    requires width { width ≤ 128 }
    requires by { unsigned_abs by ≤ 2 ^ 40 }
    ensures ranked { IfOk result (RanksMoved index.now of.now by width) }
    ensures names { IfOk result (NamesRankOf index.now) }
{
    let bounds = bounds_of(of);
    if by == 0 && !index.signed {
        if let Some(last) = last_of(&bounds) {
            let made = short_rank(alloc, index, last)?;
            return Ok(made);
        }
    }
    let left = i128::from(bounds.left) - by;
    let right = i128::from(bounds.right) - by;
    let made = bounded_rank(alloc, index, width, left, right)?;
    Ok(made)
}

/// The element with a lowered index of a path with a place.
fn indexed(
    alloc: Global,
    place: Option<Place>,
    rank: Rank,
    item: u32,
    width: u32,
) -> Result<Spot, AllocError>
    ensures { IfOk result (SpotsPlaced place rank item width) }
{
    match place {
        None => Ok(Spot::Nowhere),
        Some(place) => {
            let place = element_place(alloc, place, rank, item, width)?;
            Ok(Spot::Moved { place, below: 0 })
        }
    }
}

/// The element with a lowered index that is moved so far, of what has this type, by numbers of so many bits. Or want of memory.
pub fn index_spot(
    alloc: Global,
    spot: Spot,
    of: &SvType,
    index: &Index,
    by: i128,
    width: u32,
) -> Result<Spot, AllocError>
    requires narrow { width_of of.now ≤ 4194304 }
    requires index { index.now.width ≤ 100 }
    requires width { width ≤ 128 }
    requires by { unsigned_abs by ≤ 2 ^ 40 }
    ensures stands { IfOk result (SpotsIndex spot index.now of.now by width) }
    ensures names { IfOk result (NamesAdded spot index.now) }
{
    let item = bounds_of(of).element;
    let place = place_in(alloc, spot, width);
    let (place, rank) = pairs::both(place, rank_of(alloc, index, of, by, width))?;
    let made = indexed(alloc, place, rank, item, width)?;
    Ok(made)
}
