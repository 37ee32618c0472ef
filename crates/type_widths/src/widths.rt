//! Widths of types.

ghost use Rattle.std.specs.Prelude.{◌≡◌, ◌≤◌, ◌+◌, ◌*◌, ◌%◌, length, map, unsigned_abs, ◌-ℤ◌, IfOk};
ghost use Rattle.sv_types.specs.Layouts.{count_of, member_layout, stacked_marks, widest_marks, width_of};
ghost use Rattle.type_widths.specs.Limbs.{number};

use crate::limbs::{Limbs, add_times, is_less, times_more};
use std::alloc::{AllocError, Global};
use sv_types::{Member, SvType};

// How far two bounds are apart.
fn distance(left: i64, right: i64) -> u64
    ensures { result ≡ unsigned_abs (left -ℤ right) }
{
    (i128::from(left) - i128::from(right)).unsigned_abs() as u64
}

/// The number of bits of a type of any size. Or want of memory.
#[cycle(wide)]
#[tactic(auto, using(crate::proofs::Layouts::layouts))]
pub fn wide(alloc: Global, t: &SvType) -> Result<Limbs, AllocError>
    ensures { IfOk result (λ w. number w ≡ width_of t.now) }
{
    match t {
        SvType::Scalar { .. } => Limbs::from_slice(alloc, &[1]),
        SvType::PackedArray {
            left,
            right,
            item,
            ..
        } => wide_array(alloc, *left, *right, item.get()),
        SvType::Struct { members, .. } => wide_struct(alloc, members.as_slice()),
        SvType::Union { members, .. } => wide_union(alloc, members.as_slice()),
        SvType::Enum { base, .. } => wide(alloc, base.get()),
        SvType::UnpackedArray { left, right, item } => {
            wide_array(alloc, *left, *right, item.get())
        }
    }
}

// The bits of all elements of an array.
#[cycle(wide)]
fn wide_array(alloc: Global, left: i64, right: i64, item: &SvType) -> Result<Limbs, AllocError>
    ensures { IfOk result (λ w. number w ≡ count_of left right * width_of item.now) }
{
    let item = wide(alloc, item)?;
    times_more(alloc, item.as_slice(), distance(left, right))
}

// The bits of all members together.
#[cycle(wide)]
fn wide_struct(alloc: Global, members: &[Member]) -> Result<Limbs, AllocError>
    ensures { IfOk result (λ w. number w ≡ length (stacked_marks (map member_layout members.now))) }
{
    let mut sum = Limbs::new(alloc);
    for member in members {
        let more = wide(alloc, &member.of)?;
        sum = add_times(alloc, sum.as_slice(), more.as_slice(), 1)?;
    }
    Ok(sum)
}

// The bits of the widest member.
#[cycle(wide)]
fn wide_union(alloc: Global, members: &[Member]) -> Result<Limbs, AllocError>
    ensures { IfOk result (λ w. number w ≡ length (widest_marks (map member_layout members.now))) }
{
    let mut greatest = Limbs::new(alloc);
    for member in members {
        let next = wide(alloc, &member.of)?;
        if is_less(greatest.as_slice(), next.as_slice()) {
            greatest = next;
        }
    }
    Ok(greatest)
}

/// The low 32 bits of the number of bits of a type of any size. Or want of memory.
#[tactic(auto, using(crate::proofs::Layouts::lowest))]
pub fn low_width(alloc: Global, t: &SvType) -> Result<u32, AllocError>
    ensures { IfOk result (λ w. w ≡ width_of t.now % 4294967296) }
{
    let limbs = wide(alloc, t)?;
    match sv_source::at(limbs.as_slice(), 0) {
        Some(low) => Ok(*low),
        None => Ok(0),
    }
}
