//! Places that values are assigned to.

ghost use Rattle.std.specs.Prelude.{◌≡◌, ◌≤◌, map, replicate, slice_get};
ghost use Rattle.sv_types.specs.Layouts.{layout, width_of, count_of, at_the_bottom};
ghost use Rattle.sv_types.specs.Operators.{parts_of};
ghost use Rattle.sv_types.specs.Functions.{parameter};
ghost use Rattle.eval_parts.specs.Targets.{AreNarrow, AllNarrow, marks_of, marks_of_formals, marks_of_parts, IsTypeAt, IsMemberAt};

use sv_types::{Formal, Member, SvType};

/// The members or elements of a type, or the formals of a function.
#[derive(Clone, Copy)]
pub enum Places<'a> {
    /// The members or elements of a type.
    Parts(&'a SvType),
    /// The formals of a function.
    Formals(&'a [Formal]),
}

// How many elements there are between two bounds, both included.
fn count_between(left: i64, right: i64) -> u128
    ensures { result ≡ count_of left right }
{
    (left as i128 - right as i128).unsigned_abs() + 1
}

// The type of the element at a place.
#[tactic(auto, using(crate::proofs::Elements::elements))]
fn element_type(left: i64, right: i64, item: &SvType, i: usize) -> Option<&SvType>
    requires { width_of item.now ≤ 4194304 }
    ensures { IsTypeAt result (slice_get (marks_of_parts (replicate (count_of left right) (at_the_bottom (layout item.now)))) i) }
{
    if (i as u128) < count_between(left, right) {
        Some(item)
    } else {
        None
    }
}

// The type of the member at a place.
fn member_type(members: &[Member], i: usize) -> Option<&SvType>
    ensures { IsMemberAt result members.now i }
{
    if i < members.len() {
        Some(&members[i].of)
    } else {
        None
    }
}

// The type of the member or element at a place.
fn part_type(t: &SvType, i: usize) -> Option<&SvType>
    requires some { 1 ≤ width_of t.now }
    requires narrow { width_of t.now ≤ 4194304 }
    ensures { IsTypeAt result (slice_get (marks_of_parts (parts_of (layout t.now))) i) }
{
    match t {
        SvType::Scalar { .. } => { if i == 0 { Some(t) } else { None } }
        SvType::PackedArray {
            left,
            right,
            item,
            ..
        } => element_type(*left, *right, item.get(), i),
        SvType::Struct { members, .. } => member_type(members.as_slice(), i),
        SvType::Union { members, .. } => member_type(members.as_slice(), i),
        SvType::Enum { base, .. } => part_type(base.get(), i),
        SvType::UnpackedArray { left, right, item } => element_type(*left, *right, item.get(), i),
    }
}

// The type of the formal at a place.
fn formal_type(formals: &[Formal], i: usize) -> Option<&SvType>
    requires { AllNarrow formals.now }
    ensures { IsTypeAt result (slice_get (marks_of_formals (map parameter formals.now)) i) }
{
    if i < formals.len() {
        Some(&formals[i].local.of)
    } else {
        None
    }
}

/// The type at a place.
pub fn type_at<'a>(places: &Places<'a>, i: usize) -> Option<&'a SvType>
    requires { AreNarrow places.now }
    ensures { IsTypeAt result (slice_get (marks_of places.now) i) }
{
    match places {
        Places::Parts(t) => part_type(t, i),
        Places::Formals(formals) => formal_type(formals, i),
    }
}
