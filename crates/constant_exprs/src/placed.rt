//! The items of patterns that have a place (IEEE 1800-2017 clause 10.9).

ghost use Rattle.std.specs.Prelude.{◌≡◌, length, take};
ghost use Rattle.sv_types.specs.Layouts.{layout, count_of};
ghost use Rattle.sv_types.specs.Operators.{parts_of};
ghost use Rattle.constant_exprs.specs.Placed.{CountsMembers};

use sv_types::{Expr, Member, SvType};

/// How many elements there are between two bounds, both included.
fn count_between(left: i64, right: i64) -> u128
    ensures { result ≡ count_of left right }
{
    (i128::from(left) - i128::from(right)).unsigned_abs() + 1
}

/// How many members there are; one that has none is indexed by the bits `[-1:0]`.
fn member_count(members: &[Member]) -> u128
    ensures { CountsMembers members.now result }
{
    if members.is_empty() {
        2
    } else {
        members.len() as u128
    }
}

/// How many members or elements a type has.
#[tactic(auto, using(crate::proofs::Counting::counts))]
fn part_count(t: &SvType) -> u128
    ensures { result ≡ length (parts_of (layout t.now)) }
{
    match t {
        SvType::Scalar { .. } => 1,
        SvType::PackedArray { left, right, .. } => count_between(*left, *right),
        SvType::Struct { members, .. } => member_count(members.as_slice()),
        SvType::Union { members, .. } => member_count(members.as_slice()),
        SvType::Enum { base, .. } => part_count(base.get()),
        SvType::UnpackedArray { left, right, .. } => count_between(*left, *right),
    }
}

/// Of the items of a pattern of a type those that have a member or an element.
pub(crate) fn placed<'a>(of: &SvType, es: &'a [Expr]) -> &'a [Expr]
    ensures { result.now ≡ take (length (parts_of (layout of.now))) es.now }
{
    let n = part_count(of);
    if n < es.len() as u128 {
        &es[..n as usize]
    } else {
        es
    }
}
