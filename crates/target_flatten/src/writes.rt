//! What is written of a path: each bit in range gets its bit of the value, and no other bit is written (IEEE 1800-2017 clause
//! 11.5.1).

ghost use Rattle.std.specs.Prelude.{◌≡◌, ◌≤◌, ◌-◌, ◌-ℤ◌, ◌^◌, min, pos, [], ◌∷◌, IfOk};
ghost use Rattle.picks.specs.Windows.{at_least_0};
ghost use Rattle.sv_types.specs.Layouts.{width_of};
ghost use Rattle.eval_parts.specs.Places.{IsNear};
ghost use Rattle.target_flatten.specs.Writing.{WritesInner, WritesWhole, WritesBetween, MakesWrites};
ghost use Rattle.target_flatten.specs.Naming.{NamesWrites};
ghost use Rattle.target_flatten.specs.Owning.{AllOwn, PlainWrites, writes_made};

use crate::aims::{Aim, aim_at};
use crate::spots::{Spot, inside};
use eval_parts::{Window, between_at, entire};
use std::alloc::{AllocError, Global};
use sv_source::{Items, Text};
use sv_types::{SvType, width};
use v_tree::{VExpr, VLval};

/// A name of the target that is a vector, and how many bits offsets in it have.
#[derive(Drop)]
pub struct Image {
    /// The name.
    pub name: Text,
    /// How many bits it has.
    pub bits: u32,
    /// How many bits offsets and ranks have.
    pub room: u32,
}

/// A target for some bits of a value.
#[derive(Drop)]
pub struct Write {
    /// The condition under which it is written, if there is one.
    pub guard: Option<VExpr>,
    /// What is assigned to.
    pub to: VLval,
    /// Which bit of the value is the lowest one that it gets.
    pub low: u32,
    /// How many bits it gets.
    pub width: u32,
}

/// Targets, all of whose guards and indices are valued before the first one is written.
pub type Writes = Items<Write>;

/// The bit of a value that goes to the lowest bit in range of a window.
fn first_bit(inner: Window) -> u32
    requires { IsNear inner.shift }
    ensures { result ≡ min (at_least_0 (pos inner.low -ℤ inner.shift)) (2 ^ 32 - 1) }
{
    let n = i128::from(inner.low) - inner.shift;
    if n < 0 { 0 } else { n.min(4294967295) as u32 }
}

/// At most one target, for so many bits of a value from bit `low` on.
fn writes_of(alloc: Global, aim: Option<Aim>, low: u32, n: u32) -> Result<Writes, AllocError>
    ensures makes { IfOk result (MakesWrites aim low n) }
    ensures is { IfOk result (λ xs. xs ≡ writes_made aim low n) }
{
    let mut made: Writes = Items::from_vec(Vec::new(alloc));
    if let Some(aim) = aim {
        made.push(Write {
            guard: aim.guard,
            to: aim.to,
            low,
            width: n,
        })?;
    }
    Ok(made)
}

/// What is written of the bits of a path that a window names.
fn inner_writes(
    alloc: Global,
    image: &Image,
    spot: Spot,
    inner: Window,
) -> Result<Writes, AllocError>
    requires near { IsNear inner.shift }
    requires room { image.now.room ≤ 128 }
    ensures writes { IfOk result (WritesInner image.now.bits spot inner image.now.room) }
    ensures names { IfOk result (NamesWrites spot) }
    ensures own { IfOk result (AllOwn image.now.name image.now.bits) }
    ensures plain { IfOk result (PlainWrites image.now.name spot) }
{
    if inner.high <= inner.low {
        return Ok(Items::from_vec(Vec::new(alloc)));
    }
    let n = inner.high - inner.low;
    let aim = aim_at(alloc, image, inside(spot, inner.low), n)?;
    let made = writes_of(alloc, aim, first_bit(inner), n)?;
    Ok(made)
}

/// What is written of all of a path of so many bits that stands somewhere. Or want of memory.
pub fn whole_writes(alloc: Global, image: &Image, spot: Spot, n: u32) -> Result<Writes, AllocError>
    requires room { image.now.room ≤ 128 }
    ensures writes { IfOk result (WritesWhole image.now.bits spot n image.now.room) }
    ensures names { IfOk result (NamesWrites spot) }
    ensures own { IfOk result (AllOwn image.now.name image.now.bits) }
    ensures plain { IfOk result (PlainWrites image.now.name spot) }
{
    let made = inner_writes(alloc, image, spot, entire(n))?;
    Ok(made)
}

/// What is written of the elements from one bound to the other of what has this type and stands somewhere. Or want of memory.
pub fn between_writes(
    alloc: Global,
    image: &Image,
    spot: Spot,
    of: &SvType,
    left: i64,
    right: i64,
) -> Result<Writes, AllocError>
    requires narrow { width_of of.now ≤ 4194304 }
    requires room { image.now.room ≤ 128 }
    ensures writes { IfOk result (WritesBetween image.now.bits spot of.now left right image.now.room) }
    ensures names { IfOk result (NamesWrites spot) }
    ensures own { IfOk result (AllOwn image.now.name image.now.bits) }
    ensures plain { IfOk result (PlainWrites image.now.name spot) }
{
    let inner = between_at(of, left, right, entire(width(of)));
    let made = inner_writes(alloc, image, spot, inner)?;
    Ok(made)
}
