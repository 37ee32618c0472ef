//! What can be selected from a type, and how its bits are stored.

ghost use Rattle.std.specs.Prelude.{◌≡◌, ◌≤◌, ◌-ℤ◌, pos, length, IfOk};
ghost use Rattle.b4_core.specs.Vectors.{ext};
ghost use Rattle.sv_types.specs.Layouts.{layout, width_of, stored};

use crate::vectors::extended;
use b4_core::Vec4;
use std::alloc::{AllocError, Global};
use sv_types::{SvType, store, width};

/// The sign of a type.
#[tactic(auto, using(crate::proofs::TypeKinds::kinds))]
pub fn is_signed(t: &SvType) -> bool
    ensures { result ≡ (layout t.now).signed }
{
    match t {
        SvType::Scalar { signed, .. } => *signed,
        SvType::PackedArray { signed, .. } => *signed,
        SvType::Struct { packed, signed, .. } => *packed && *signed,
        SvType::Union { signed, .. } => *signed,
        SvType::Enum { base, .. } => is_signed(base.get()),
        SvType::UnpackedArray { .. } => false,
    }
}

/// Bits of a sign as they are assigned to a type, in their context.
pub fn converted(
    alloc: Global,
    t: &SvType,
    v: &Vec4,
    from_signed: bool,
    context: u32,
    signed: bool,
) -> Result<Vec4, AllocError>
    requires { width_of t.now ≤ 4194304 }
    ensures { IfOk result (λ r. r ≡ ext context signed (stored (layout t.now).two_state (ext (width_of t.now) from_signed v.now))) }
{
    let cut = extended(alloc, v, width(t), from_signed)?;
    extended(alloc, &store(alloc, t, &cut)?, context, signed)
}

/// What can be indexed in a type: its bounds, and the width of an element.
#[derive(Clone, Copy)]
pub struct Bounds {
    pub left: i64,
    pub right: i64,
    pub element: u32,
}

// The bounds of a type that is indexed by its bits.
fn bit_bounds(width: u32) -> Bounds
    ensures left { result.left ≡ pos width -ℤ pos 1 }
    ensures right { result.right ≡ pos 0 }
    ensures element { result.element ≡ 1 }
{
    Bounds {
        left: width as i64 - 1,
        right: 0,
        element: 1,
    }
}

/// What can be indexed in a type.
#[tactic(auto, using(crate::proofs::TypeKinds::bounds))]
pub fn bounds_of(t: &SvType) -> Bounds
    requires { width_of t.now ≤ 4194304 }
    ensures left { result.left ≡ (layout t.now).left }
    ensures right { result.right ≡ (layout t.now).right }
    ensures element { result.element ≡ length (layout t.now).element.two_state }
    ensures narrow { result.element ≤ 4194304 }
{
    match t {
        SvType::Scalar { .. } => bit_bounds(1),
        SvType::PackedArray {
            left,
            right,
            item,
            ..
        } => Bounds {
            left: *left,
            right: *right,
            element: width(item.get()),
        },
        SvType::Struct { .. } => bit_bounds(width(t)),
        SvType::Union { .. } => bit_bounds(width(t)),
        SvType::Enum { base, .. } => bounds_of(base.get()),
        SvType::UnpackedArray { left, right, item } => Bounds {
            left: *left,
            right: *right,
            element: width(item.get()),
        },
    }
}
