//! Types that have the same bits, sign, members and elements.

ghost use Rattle.std.specs.Prelude.{◌≡◌, map, slice_get};
ghost use Rattle.sv_types.specs.Layouts.{layout, member_layout, count_of, above_the_next, at_the_bottom};
ghost use Rattle.expr_fits.specs.Results.{AlikeIf, AllAlikeIf, PartIf, AreElements, ElementIf, SameElementsIf, ElementsIf};

use eval_parts::is_signed;
use sv_types::{Member, SvType};

/// Whether two types have the same bits, sign, members and elements. It says so of no others than those of one build.
#[cycle(alike)]
#[tactic(auto, using(crate::proofs::Likeness::kinds))]
pub fn is_alike(t: &SvType, u: &SvType) -> bool
    ensures { AlikeIf result t.now u.now }
{
    match (t, u) {
        (SvType::Scalar { four, signed }, SvType::Scalar { four: f, signed: s }) => {
            *four == *f && *signed == *s
        }
        (
            SvType::PackedArray {
                left,
                right,
                signed,
                item,
            },
            SvType::PackedArray {
                left: l,
                right: r,
                signed: s,
                item: i,
            },
        ) => *left == *l && *right == *r && *signed == *s && is_alike(item.get(), i.get()),
        (
            SvType::Struct {
                packed,
                signed,
                members,
                ..
            },
            SvType::Struct {
                packed: p,
                signed: s,
                members: m,
                ..
            },
        ) => *packed == *p && *signed == *s && are_alike(members.as_slice(), m.as_slice()),
        (
            SvType::Union {
                signed,
                members,
                ..
            },
            SvType::Union {
                signed: s,
                members: m,
                ..
            },
        ) => *signed == *s && are_alike(members.as_slice(), m.as_slice()),
        (SvType::Enum { base, .. }, SvType::Enum { base: b, .. }) => is_alike(base.get(), b.get()),
        (
            SvType::UnpackedArray { left, right, item },
            SvType::UnpackedArray {
                left: l,
                right: r,
                item: i,
            },
        ) => *left == *l && *right == *r && is_alike(item.get(), i.get()),
        _ => false,
    }
}

// Whether members are alike, one by one.
#[cycle(alike)]
fn are_alike(ms: &[Member], ns: &[Member]) -> bool
    ensures { AllAlikeIf result ms.now ns.now }
{
    if ms.len() != ns.len() {
        return false;
    }
    for i in 0..ms.len() {
        if !is_alike(&ms[i].of, &ns[i].of) {
            return false;
        }
    }
    true
}

// Whether a type is that of the member of a struct with a number.
#[tactic(auto, using(crate::proofs::Likeness::struct_like))]
fn is_struct_member(t: &SvType, members: &[Member], k: usize) -> bool
    ensures { PartIf result (layout t.now) (slice_get (above_the_next (map member_layout members.now)) k) }
{
    if k >= members.len() {
        return false;
    }
    is_alike(t, &members[k].of)
}

// Whether a type is that of the member of a union with a number.
#[tactic(auto, using(crate::proofs::Likeness::union_like))]
fn is_union_member(t: &SvType, members: &[Member], k: usize) -> bool
    ensures { PartIf result (layout t.now) (slice_get (map at_the_bottom (map member_layout members.now)) k) }
{
    if k >= members.len() {
        return false;
    }
    is_alike(t, &members[k].of)
}

/// Whether a type is that of the member with a number.
#[tactic(auto, using(crate::proofs::Likeness::members))]
pub fn is_member_type(t: &SvType, from: &SvType, k: u32) -> bool
    ensures { PartIf result (layout t.now) (slice_get (layout from.now).members k) }
{
    match from {
        SvType::Scalar { .. } => false,
        SvType::PackedArray { .. } => false,
        SvType::Struct { members, .. } => is_struct_member(t, members.as_slice(), k as usize),
        SvType::Union { members, .. } => is_union_member(t, members.as_slice(), k as usize),
        SvType::Enum { .. } => false,
        SvType::UnpackedArray { .. } => false,
    }
}

/// The elements of an array.
#[derive(Clone, Copy)]
pub struct Elements<'a> {
    /// How many there are.
    pub count: u128,
    /// Their type.
    pub item: &'a SvType,
}

/// How many elements there are between two bounds, both included.
pub fn count_between(left: i64, right: i64) -> u128
    ensures { result ≡ count_of left right }
{
    (left as i128 - right as i128).unsigned_abs() + 1
}

// The elements of a type that is an array.
#[tactic(auto, using(crate::proofs::Likeness::arrays))]
fn elements_of(t: &SvType) -> Option<Elements<'_>>
    ensures { AreElements result (layout t.now) }
{
    match t {
        SvType::Scalar { .. } => None,
        SvType::PackedArray {
            left,
            right,
            item,
            ..
        } => Some(Elements {
            count: count_between(*left, *right),
            item: item.get(),
        }),
        SvType::Struct { .. } => None,
        SvType::Union { .. } => None,
        SvType::Enum { .. } => None,
        SvType::UnpackedArray { left, right, item } => Some(Elements {
            count: count_between(*left, *right),
            item: item.get(),
        }),
    }
}

/// Whether a type is that of an element of an array.
#[tactic(auto, using(crate::proofs::Likeness::element_like))]
pub fn is_element_type(t: &SvType, from: &SvType) -> bool
    ensures { ElementIf result (layout t.now) (layout from.now) }
{
    match elements_of(from) {
        None => false,
        Some(from) => is_alike(t, from.item),
    }
}

// Whether these are so many elements of the same type.
fn are_elements(t: Elements<'_>, from: Elements<'_>, count: u128) -> bool
    ensures { SameElementsIf result (layout t.entry.item.now) (layout from.entry.item.now) t.entry.count count }
{
    if t.count != count {
        return false;
    }
    is_alike(t.item, from.item)
}

/// Whether a type is that of so many elements of an array, which are unsigned as a whole.
#[tactic(auto, using(crate::proofs::Likeness::elements_like))]
pub fn is_elements_type(t: &SvType, from: &SvType, count: u128) -> bool
    ensures { ElementsIf result (layout t.now) (layout from.now) count }
{
    if is_signed(t) {
        return false;
    }
    match (elements_of(t), elements_of(from)) {
        (Some(own), Some(from)) => are_elements(own, from, count),
        _ => false,
    }
}
