//! How many elements of an array lie below the one with an index, and where the index is in range (IEEE 1800-2017 clause 7.4.5).

ghost use Rattle.std.specs.Prelude.{◌≡◌, ◌≤◌, true, Some, None, IfOk};
ghost use Rattle.v_meaning.specs.Values as means;
ghost use Rattle.v_meaning.specs.Values.{meaning};
ghost use Rattle.lowering_laws.specs.Terms as terms;
ghost use Rattle.path_flatten.specs.Guards.{guard_meaning};
ghost use Rattle.path_flatten.specs.Placing.{RanksFree, RanksGuarded, RanksSigned};

use crate::copies::copy_expr;
use crate::numbers::{bound, number};
use b4_core::{BinOp, OrdOp};
use std::alloc::{AllocError, Global};
use sv_source::Items;
use v_build::{binary, both, concatenation, order, signing};
use v_tree::{VExpr, VExprs};

/// The rank of an index, which is the number of elements below the one that it names, where the guard is 1. Where the guard
/// isn't, or the rank has x or z, no element has the index.
#[derive(Drop)]
pub struct Rank {
    /// The condition that the index is in range, where its bits alone don't say so.
    pub guard: Option<VExpr>,
    /// The rank, unsigned.
    pub rank: VExpr,
}

/// An expression in braces, which is unsigned and valued alone. Or want of memory.
pub fn braced(alloc: Global, e: VExpr) -> Result<VExpr, AllocError>
    ensures { IfOk result (λ b. meaning b ≡ terms.braced (meaning e)) }
{
    let mut items: VExprs = Items::from_vec(Vec::new(alloc));
    items.push(e)?;
    Ok(concatenation(items))
}

/// `$signed(index)`
fn signed_copy(alloc: Global, index: &VExpr) -> Result<VExpr, AllocError>
    ensures { IfOk result (λ e. meaning e ≡ means.signing true (meaning index.now)) }
{
    let copy = copy_expr(alloc, index)?;
    let made = signing(alloc, true, copy)?;
    Ok(made)
}

/// A comparison of a signed index with a bound.
fn compared(
    alloc: Global,
    op: OrdOp,
    index: &VExpr,
    width: u32,
    n: i64,
) -> Result<VExpr, AllocError>
    requires { width ≤ 128 }
    ensures { IfOk result (λ e. meaning e ≡ means.order op (means.signing true (meaning index.now)) (terms.bound width n)) }
{
    let left = signed_copy(alloc, index);
    let (left, right) = pairs::both(left, bound(alloc, width, i128::from(n)))?;
    let made = order(alloc, op, left, right)?;
    Ok(made)
}

/// The condition that a signed index lies between two bounds, both included.
fn between(
    alloc: Global,
    index: &VExpr,
    width: u32,
    low: i64,
    high: i64,
) -> Result<VExpr, AllocError>
    requires { width ≤ 128 }
    ensures { IfOk result (λ e. meaning e ≡ terms.between (means.signing true (meaning index.now)) width low high) }
{
    let above = compared(alloc, OrdOp::GreaterEqual, index, width, low);
    let below = compared(alloc, OrdOp::LessEqual, index, width, high);
    let (above, below) = pairs::both(above, below)?;
    let made = both(alloc, above, below)?;
    Ok(made)
}

/// How far a signed index lies above a bound.
fn above(alloc: Global, index: &VExpr, width: u32, n: i64) -> Result<VExpr, AllocError>
    requires { width ≤ 128 }
    ensures { IfOk result (λ e. meaning e ≡ terms.above (means.signing true (meaning index.now)) width n) }
{
    let left = signed_copy(alloc, index);
    let (left, right) = pairs::both(left, bound(alloc, width, i128::from(n)))?;
    let difference = binary(alloc, BinOp::Sub, left, right)?;
    braced(alloc, difference)
}

/// An index in braces.
fn braced_copy(alloc: Global, index: &VExpr) -> Result<VExpr, AllocError>
    ensures { IfOk result (λ b. meaning b ≡ terms.braced (meaning index.now)) }
{
    let copy = copy_expr(alloc, index)?;
    braced(alloc, copy)
}

/// The condition that an unsigned index of so many bits isn't behind the last one.
fn at_most(alloc: Global, index: &VExpr, width: u32, last: u32) -> Result<VExpr, AllocError>
    ensures { IfOk result (λ e. meaning e ≡ terms.at_most (meaning index.now) width last) }
{
    let copy = copy_expr(alloc, index);
    let (copy, limit) = pairs::both(copy, number(alloc, width, last))?;
    let made = order(alloc, OrdOp::LessEqual, copy, limit)?;
    Ok(made)
}

/// The rank of an unsigned index that has too few bits to pass the last element of an array `[last:0]`.
pub fn free_rank(alloc: Global, index: &VExpr) -> Result<Rank, AllocError>
    ensures guard { IfOk result (λ r. guard_meaning r.guard ≡ None) }
    ensures rank { IfOk result (λ r. meaning r.rank ≡ terms.braced (meaning index.now)) }
    ensures ranked { IfOk result (RanksFree (meaning index.now)) }
{
    let rank = braced_copy(alloc, index)?;
    Ok(Rank { guard: None, rank })
}

/// The rank of an unsigned index of so many bits of an array `[last:0]`.
pub fn guarded_rank(alloc: Global, index: &VExpr, width: u32, last: u32) -> Result<Rank, AllocError>
    ensures guard { IfOk result (λ r. guard_meaning r.guard ≡ Some (terms.at_most (meaning index.now) width last)) }
    ensures rank { IfOk result (λ r. meaning r.rank ≡ terms.braced (meaning index.now)) }
    ensures ranked { IfOk result (RanksGuarded (meaning index.now) width last) }
{
    let guard = at_most(alloc, index, width, last)?;
    let rank = braced_copy(alloc, index)?;
    Ok(Rank {
        guard: Some(guard),
        rank,
    })
}

/// The rank of a signed index of an array whose bounds fall, by numbers of so many bits.
pub fn falling_rank(
    alloc: Global,
    index: &VExpr,
    width: u32,
    left: i64,
    right: i64,
) -> Result<Rank, AllocError>
    requires { width ≤ 128 }
    ensures guard { IfOk result (λ r. guard_meaning r.guard ≡ Some (terms.between (means.signing true (meaning index.now)) width right left)) }
    ensures rank { IfOk result (λ r. meaning r.rank ≡ terms.above (means.signing true (meaning index.now)) width right) }
    ensures ranked { IfOk result (RanksSigned (meaning index.now) width left right true) }
{
    let guard = between(alloc, index, width, right, left)?;
    let rank = above(alloc, index, width, right)?;
    Ok(Rank {
        guard: Some(guard),
        rank,
    })
}
