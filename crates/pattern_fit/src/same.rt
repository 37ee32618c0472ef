//! When two types are one type.

ghost use Rattle.std.specs.Prelude.{◌≡◌, map};
ghost use Rattle.pattern_fit.specs.Same as same;
ghost use Rattle.pattern_fit.specs.Same.{same_type, of_member, of_scalar};
ghost use Rattle.sv_types.specs.declared.types.SvType.{out-SvType};

use sv_types::{Member, SvType};

/// Whether two types are one (IEEE 1800-2017 clause 6.22.1): structs, unions and enums by their declarations, by being packed and
/// signed alike, and by the types in them, others by their form.
#[cycle(same)]
pub fn is_same(a: &SvType, b: &SvType) -> bool
    ensures { result ≡ same_type a.now b.now }
{
    match a {
        SvType::Scalar { four, signed } => is_scalar(*four, *signed, b),
        SvType::PackedArray {
            left,
            right,
            signed,
            item,
        } => match b {
            SvType::PackedArray {
                left: l,
                right: r,
                signed: s,
                item: i,
            } => *left == *l && *right == *r && *signed == *s && is_same(item.get(), i.get()),
            SvType::Scalar { .. } => false,
            SvType::Struct { .. } => false,
            SvType::Union { .. } => false,
            SvType::Enum { .. } => false,
            SvType::UnpackedArray { .. } => false,
        },
        SvType::Struct {
            id,
            packed,
            signed,
            members,
        } => match b {
            SvType::Struct {
                id: i,
                packed: p,
                signed: s,
                members: others,
            } => {
                *id == *i
                    && *packed == *p
                    && *signed == *s
                    && same_members(members.as_slice(), others.as_slice())
            }
            SvType::Scalar { .. } => false,
            SvType::PackedArray { .. } => false,
            SvType::Union { .. } => false,
            SvType::Enum { .. } => false,
            SvType::UnpackedArray { .. } => false,
        },
        SvType::Union {
            id,
            signed,
            members,
        } => match b {
            SvType::Union {
                id: i,
                signed: s,
                members: others,
            } => {
                *id == *i && *signed == *s && same_members(members.as_slice(), others.as_slice())
            }
            SvType::Scalar { .. } => false,
            SvType::PackedArray { .. } => false,
            SvType::Struct { .. } => false,
            SvType::Enum { .. } => false,
            SvType::UnpackedArray { .. } => false,
        },
        SvType::Enum { id, base, .. } => match b {
            SvType::Enum {
                id: i,
                base: other,
                ..
            } => *id == *i && is_same(base.get(), other.get()),
            SvType::Scalar { .. } => false,
            SvType::PackedArray { .. } => false,
            SvType::Struct { .. } => false,
            SvType::Union { .. } => false,
            SvType::UnpackedArray { .. } => false,
        },
        SvType::UnpackedArray { left, right, item } => match b {
            SvType::UnpackedArray {
                left: l,
                right: r,
                item: i,
            } => *left == *l && *right == *r && is_same(item.get(), i.get()),
            SvType::Scalar { .. } => false,
            SvType::PackedArray { .. } => false,
            SvType::Struct { .. } => false,
            SvType::Union { .. } => false,
            SvType::Enum { .. } => false,
        },
    }
}

// Whether members have the same types one by one.
#[cycle(same)]
fn same_members(a: &[Member], b: &[Member]) -> bool
    ensures { result ≡ same.same_members (map of_member a.now) b.now }
{
    if a.len() != b.len() {
        return false;
    }
    for (n, member) in a.iter().enumerate() {
        if !is_same(&member.of, &b[n].of) {
            return false;
        }
    }
    true
}

fn is_scalar(four: bool, signed: bool, t: &SvType) -> bool
    ensures { result ≡ of_scalar four signed (out-SvType t.now) }
{
    match t {
        SvType::Scalar { four: f, signed: s } => four == *f && signed == *s,
        SvType::PackedArray { .. } => false,
        SvType::Struct { .. } => false,
        SvType::Union { .. } => false,
        SvType::Enum { .. } => false,
        SvType::UnpackedArray { .. } => false,
    }
}
