//! When a value of one type may be assigned to another.

ghost use Rattle.std.specs.Prelude.{◌≡◌, map};
ghost use Rattle.expr_type.specs.Shapes as shape;
ghost use Rattle.given_types.specs.Matching.{matching_member};
ghost use Rattle.pattern_fit.specs.Same.{same_members};
ghost use Rattle.sv_types.specs.Layouts.{count_of};

use operand_types::is_unpacked;
use pattern_fit::is_same;
use sv_types::{Member, SvType};

// How many elements the bounds give.
fn count_between(left: i64, right: i64) -> u128
    ensures { result ≡ count_of left right }
{
    (left as i128 - right as i128).unsigned_abs() + 1
}

// Whether bounds give equal numbers of elements.
fn same_count(left: i64, right: i64, l: i64, r: i64) -> bool
    ensures { result ≡ shape.same_count left right l r }
{
    count_between(left, right) == count_between(l, r)
}

// Whether two types match: unpacked arrays by their sizes and elements, other types where they are one type.
#[cycle(matching)]
fn matches_type(t: &SvType, u: &SvType) -> bool
    ensures { result ≡ shape.matches t.now u.now }
{
    match t {
        SvType::Scalar { .. } => is_same(t, u),
        SvType::PackedArray {
            left,
            right,
            signed,
            item,
        } => match u {
            SvType::PackedArray {
                left: l,
                right: r,
                signed: s,
                item: i,
            } => *left == *l && *right == *r && *signed == *s && matches_type(item.get(), i.get()),
            SvType::Scalar { .. } => false,
            SvType::Struct { .. } => false,
            SvType::Union { .. } => false,
            SvType::Enum { .. } => false,
            SvType::UnpackedArray { .. } => false,
        },
        SvType::Struct {
            id,
            packed,
            signed,
            members,
        } => match u {
            SvType::Struct {
                id: i,
                packed: p,
                signed: s,
                members: others,
            } => {
                *id == *i
                    && *packed == *p
                    && *signed == *s
                    && matching_members(members.as_slice(), others.as_slice())
            }
            SvType::Scalar { .. } => false,
            SvType::PackedArray { .. } => false,
            SvType::Union { .. } => false,
            SvType::Enum { .. } => false,
            SvType::UnpackedArray { .. } => false,
        },
        SvType::Union {
            id,
            signed,
            members,
        } => match u {
            SvType::Union {
                id: i,
                signed: s,
                members: others,
            } => {
                *id == *i
                    && *signed == *s
                    && matching_members(members.as_slice(), others.as_slice())
            }
            SvType::Scalar { .. } => false,
            SvType::PackedArray { .. } => false,
            SvType::Struct { .. } => false,
            SvType::Enum { .. } => false,
            SvType::UnpackedArray { .. } => false,
        },
        SvType::Enum { id, base, .. } => match u {
            SvType::Enum {
                id: i,
                base: other,
                ..
            } => *id == *i && matches_type(base.get(), other.get()),
            SvType::Scalar { .. } => false,
            SvType::PackedArray { .. } => false,
            SvType::Struct { .. } => false,
            SvType::Union { .. } => false,
            SvType::UnpackedArray { .. } => false,
        },
        SvType::UnpackedArray { left, right, item } => match u {
            SvType::UnpackedArray {
                left: l,
                right: r,
                item: i,
            } => same_count(*left, *right, *l, *r) && matches_type(item.get(), i.get()),
            SvType::Scalar { .. } => false,
            SvType::PackedArray { .. } => false,
            SvType::Struct { .. } => false,
            SvType::Union { .. } => false,
            SvType::Enum { .. } => false,
        },
    }
}

// Whether the types of members match one by one.
#[cycle(matching)]
fn matching_members(a: &[Member], b: &[Member]) -> bool
    ensures { result ≡ same_members (map matching_member a.now) b.now }
{
    if a.len() != b.len() {
        return false;
    }
    for (n, member) in a.iter().enumerate() {
        if !matches_type(&member.of, &b[n].of) {
            return false;
        }
    }
    true
}

/// Whether a value of the second type may be assigned to the first: between unpacked types where they match, else where neither is
/// unpacked (clauses 6.22.2, 7.6 and 10.8).
pub fn is_assignable(t: &SvType, u: &SvType) -> bool
    ensures { result ≡ shape.is_assignable t.now u.now }
{
    if is_unpacked(t) {
        matches_type(t, u)
    } else {
        !is_unpacked(u)
    }
}
