//! The types of elements and part-selects.

ghost use Rattle.std.specs.Prelude.{◌≡◌, ◌≤◌};
ghost use Rattle.sv_types.specs.Layouts.{width_of};
ghost use Rattle.typed_paths.specs.Typed as typed;
ghost use Rattle.typed_paths.specs.Tests.{Tells, IsPartType, IsSlideType};

use eval_parts::bounds_of;
use sv_types::SvType;

/// Whether a type has elements: an unpacked struct has none.
pub(crate) fn has_elements(t: &SvType) -> bool
    ensures { result ≡ typed.has_elements t.now }
{
    match t {
        SvType::Scalar { .. } => true,
        SvType::PackedArray { .. } => true,
        SvType::Struct { packed, .. } => *packed,
        SvType::Union { .. } => true,
        SvType::Enum { base, .. } => has_elements(base.get()),
        SvType::UnpackedArray { .. } => true,
    }
}

/// Whether a type is that of a part-select with these bounds, of what has another type.
pub(crate) fn is_part_type(t: &SvType, from: &SvType, left: i64, right: i64) -> bool
    requires narrow { width_of t.now ≤ 4194304 }
    requires whole { width_of from.now ≤ 4194304 }
    ensures { Tells result (IsPartType t.now from.now left right) }
{
    let own = bounds_of(t);
    let whole = bounds_of(from);
    if !has_elements(from) {
        return false;
    }
    if own.left != left {
        return false;
    }
    if own.right != right {
        return false;
    }
    if own.element != whole.element {
        return false;
    }
    if left == right {
        return true;
    }
    let falls = own.right <= own.left;
    let whole_falls = whole.right <= whole.left;
    if falls != whole_falls {
        return false;
    }
    true
}

/// Whether a type is that of a part-select of so many elements from an index on, of what has another type.
pub(crate) fn is_slide_type(t: &SvType, from: &SvType, n: u32) -> bool
    requires narrow { width_of t.now ≤ 4194304 }
    requires whole { width_of from.now ≤ 4194304 }
    ensures { Tells result (IsSlideType t.now from.now n) }
{
    let own = bounds_of(t);
    let whole = bounds_of(from);
    if !has_elements(from) {
        return false;
    }
    if n == 0 {
        return false;
    }
    let last = i64::from(n) - 1;
    if own.left != last {
        return false;
    }
    if own.right != 0 {
        return false;
    }
    if own.element != whole.element {
        return false;
    }
    true
}
