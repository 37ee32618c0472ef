//! Steps of select paths, from what their last part answered.

ghost use Rattle.std.specs.Prelude.{◌≡◌, ◌≤◌, length, slice_get, IfOk, cond, Some, None};
ghost use Rattle.b4_core.specs.Vectors.{known, number, ext};
ghost use Rattle.sv_types.specs.Layouts.{layout, width_of, stored};
ghost use Rattle.sv_types.specs.Windows.{member_of, element_of, between, slide, whole};
ghost use Rattle.eval_parts.specs.Places.{IsNear};
ghost use Rattle.eval_parts.specs.PathForms.{StepsOn, StepsBy, StandsOn};

use crate::fields::member_at;
use crate::halt::Halt;
use crate::paths::{Found, Root, entire};
use crate::selects::{between_at, element_at, index_of, slide_at};
use b4_core::Vec4;
use sv_types::SvType;

/// The member with a number of what is found.
pub fn member_form(t: &SvType, k: u32, from: Result<Found, Halt>) -> Result<Found, Halt>
    requires narrow { width_of t.now ≤ 4194304 }
    requires near { IfOk from (λ f. IsNear f.window.shift) }
    ensures { StepsOn from (member_of (slice_get (layout t.now).members k)) result }
{
    match from {
        Ok(found) => Ok(Found {
            root: found.root,
            window: member_at(t, k, found.window),
        }),
        Err(halt) => Err(halt),
    }
}

/// A part-select with constant bounds of what is found.
pub fn part_form(
    t: &SvType,
    left: i64,
    right: i64,
    from: Result<Found, Halt>,
) -> Result<Found, Halt>
    requires narrow { width_of t.now ≤ 4194304 }
    requires near { IfOk from (λ f. IsNear f.window.shift) }
    ensures { StepsOn from (between (layout t.now) left right) result }
{
    match from {
        Ok(found) => Ok(Found {
            root: found.root,
            window: between_at(t, left, right, found.window),
        }),
        Err(halt) => Err(halt),
    }
}

/// The element with an index of this sign of what is found.
pub fn index_form(
    t: &SvType,
    from: Found,
    index: Result<Vec4, Halt>,
    signed: bool,
) -> Result<Found, Halt>
    requires narrow { width_of t.now ≤ 4194304 }
    requires near { IsNear from.window.shift }
    requires short { IfOk index (λ v. length v ≤ 64) }
    ensures { StepsBy from index (λ v. element_of (layout t.now) (cond (known v) (Some (number signed v)) None)) result }
{
    match index {
        Ok(v) => Ok(Found {
            root: from.root,
            window: element_at(t, index_of(&v, signed), from.window),
        }),
        Err(halt) => Err(halt),
    }
}

/// An indexed part-select of what is found, from an index of this sign on.
pub fn slide_form(
    t: &SvType,
    from: Found,
    index: Result<Vec4, Halt>,
    signed: bool,
    width: u32,
    up: bool,
) -> Result<Found, Halt>
    requires narrow { width_of t.now ≤ 4194304 }
    requires near { IsNear from.window.shift }
    requires short { IfOk index (λ v. length v ≤ 64) }
    ensures { StepsBy from index (λ v. slide (layout t.now) up width (cond (known v) (Some (number signed v)) None)) result }
{
    match index {
        Ok(v) => Ok(Found {
            root: from.root,
            window: slide_at(t, up, width, index_of(&v, signed), from.window),
        }),
        Err(halt) => Err(halt),
    }
}

/// All bits of a value.
pub fn value_form(value: Result<Vec4, Halt>, width: u32) -> Result<Found, Halt>
    ensures { StandsOn value width result }
{
    match value {
        Ok(v) => Ok(Found {
            root: Root::Value(v),
            window: entire(width),
        }),
        Err(halt) => Err(halt),
    }
}
