//! Members of structs and unions, as select paths name them (IEEE 1800-2017 clauses 7.2 and 7.3).

ghost use Rattle.std.specs.Prelude.{◌≡◌, ◌≤◌, length, map, slice_get};
ghost use Rattle.sv_types.specs.Layouts.{layout, member_layout, width_of, stacked_marks, widest_marks, above_the_next, at_the_bottom};
ghost use Rattle.sv_types.specs.Windows.{member_of};
ghost use Rattle.eval_parts.specs.Places.{window_of, IsNear};

use crate::paths::{Window, nothing, part_of};
use sv_types::{Member, SvType, width};

// The bits of all members together.
#[tactic(auto, using(crate::proofs::Members::totals))]
fn total_width(members: &[Member]) -> u32
    requires { length (stacked_marks (map member_layout members.now)) ≤ 4194304 }
    ensures { result ≡ length (stacked_marks (map member_layout members.now)) }
{
    let mut sum: u32 = 0;
    for member in members {
        sum += width(&member.of);
    }
    sum
}

// A member of a struct, which lies above those behind it.
#[tactic(auto, using(crate::proofs::Members::structs))]
fn struct_member(members: &[Member], k: usize, path: Window) -> Window
    requires narrow { length (stacked_marks (map member_layout members.now)) ≤ 4194304 }
    requires path { IsNear path.shift }
    ensures window { window_of result ≡ member_of (slice_get (above_the_next (map member_layout members.now)) k) (window_of path) }
    ensures near { IsNear result.shift }
{
    if k >= members.len() {
        return nothing();
    }
    let member = &members[k];
    let below = total_width(&members[k + 1..]);
    part_of(path, below as i128, width(&member.of) as u128)
}

// A member of a union, which lies at the bottom.
#[tactic(auto, using(crate::proofs::Members::unions))]
fn union_member(members: &[Member], k: usize, path: Window) -> Window
    requires narrow { length (widest_marks (map member_layout members.now)) ≤ 4194304 }
    requires path { IsNear path.shift }
    ensures window { window_of result ≡ member_of (slice_get (map at_the_bottom (map member_layout members.now)) k) (window_of path) }
    ensures near { IsNear result.shift }
{
    if k >= members.len() {
        return nothing();
    }
    let member = &members[k];
    part_of(path, 0, width(&member.of) as u128)
}

/// The member with a number.
#[tactic(auto, using(crate::proofs::Members::kinds))]
pub fn member_at(t: &SvType, k: u32, path: Window) -> Window
    requires narrow { width_of t.now ≤ 4194304 }
    requires path { IsNear path.shift }
    ensures window { window_of result ≡ member_of (slice_get (layout t.now).members k) (window_of path) }
    ensures near { IsNear result.shift }
{
    match t {
        SvType::Scalar { .. } => nothing(),
        SvType::PackedArray { .. } => nothing(),
        SvType::Struct { members, .. } => struct_member(members.as_slice(), k as usize, path),
        SvType::Union { members, .. } => union_member(members.as_slice(), k as usize, path),
        SvType::Enum { base, .. } => member_at(base.get(), k, path),
        SvType::UnpackedArray { .. } => nothing(),
    }
}
