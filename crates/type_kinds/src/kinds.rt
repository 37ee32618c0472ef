//! Kinds of types.

ghost use Rattle.std.specs.Prelude.{◌≡◌};
ghost use Rattle.expr_type.specs.Shapes as shape;

use expr_type::is_same;
use sv_types::SvType;

/// Whether values of a type have no bits that operators take: it is an unpacked struct or array.
pub fn is_unpacked(t: &SvType) -> bool
    ensures { result ≡ shape.is_unpacked t.now }
{
    match t {
        SvType::Scalar { .. } => false,
        SvType::PackedArray { .. } => false,
        SvType::Struct { packed, .. } => !*packed,
        SvType::Union { .. } => false,
        SvType::Enum { .. } => false,
        SvType::UnpackedArray { .. } => true,
    }
}

/// Whether a type is an unpacked array.
pub fn is_array(t: &SvType) -> bool
    ensures { result ≡ shape.is_array t.now }
{
    match t {
        SvType::Scalar { .. } => false,
        SvType::PackedArray { .. } => false,
        SvType::Struct { .. } => false,
        SvType::Union { .. } => false,
        SvType::Enum { .. } => false,
        SvType::UnpackedArray { .. } => true,
    }
}

/// Whether an index selects from a type: from an unpacked struct it doesn't.
pub fn is_indexed(t: &SvType) -> bool
    ensures { result ≡ shape.is_indexed t.now }
{
    is_array(t) || !is_unpacked(t)
}

/// The number of an enum's declaration.
pub fn enum_of(t: &SvType) -> Option<u32>
    ensures { result ≡ shape.enum_of t.now }
{
    match t {
        SvType::Scalar { .. } => None,
        SvType::PackedArray { .. } => None,
        SvType::Struct { .. } => None,
        SvType::Union { .. } => None,
        SvType::Enum { id, .. } => Some(*id),
        SvType::UnpackedArray { .. } => None,
    }
}

/// Whether a type is an enum.
pub fn is_enum(t: &SvType) -> bool
    ensures { result ≡ shape.is_enum t.now }
{
    match enum_of(t) {
        None => false,
        Some(_) => true,
    }
}

fn is_number(n: Option<u32>, m: u32) -> bool
    ensures { result ≡ shape.is_number n m }
{
    match n {
        None => false,
        Some(k) => k == m,
    }
}

fn is_same_number(n: Option<u32>, m: Option<u32>) -> bool
    ensures { result ≡ shape.is_same_number n m }
{
    match n {
        None => false,
        Some(k) => is_number(m, k),
    }
}

/// Whether two types are one enum (clause 6.22.1).
pub fn is_same_enum(t: &SvType, u: &SvType) -> bool
    ensures { result ≡ shape.is_same_enum t.now u.now }
{
    is_same_number(enum_of(t), enum_of(u)) && is_same(t, u)
}

/// Whether the first type is an enum that the second one isn't (clause 6.19.3).
pub fn is_plain_to_enum(t: &SvType, u: &SvType) -> bool
    ensures { result ≡ shape.is_plain_to_enum t.now u.now }
{
    is_enum(t) && !is_same_enum(t, u)
}
