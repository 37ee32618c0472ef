//! Steps of select paths that need no arithmetic in the text: they only narrow what is read (IEEE 1800-2017 clauses 7.2.1,
//! 7.4.5 and 11.5.1).

ghost use Rattle.std.specs.Prelude.{◌≡◌, ◌≤◌, ◌^◌, unsigned_abs, IfSome, IfOk};
ghost use Rattle.sv_types.specs.Layouts.{width_of};
ghost use Rattle.v_meaning.specs.Values.{meaning};
ghost use Rattle.path_flatten.specs.declared.readings.Root.TheVariants as roots;
ghost use Rattle.path_flatten.specs.Naming.{RootNames};
ghost use Rattle.path_flatten.specs.Stepping.{IsSound, ReadsMember, ReadsElement, ReadsBetween, ReadsName, ReadsValue};

use crate::ranks::braced;
use crate::readings::{Reading, Root};
use eval_parts::{between_at, element_at, entire, member_at};
use std::alloc::{AllocError, Global};
use sv_source::Text;
use sv_types::SvType;
use v_tree::VExpr;

/// All bits of a name of the target, which is a vector of so many bits.
pub fn whole_name(name: Text, width: u32) -> Reading
    ensures sound { IsSound result }
    ensures reads { ReadsName name width result }
    ensures root { result.root ≡ roots.Name name }
{
    Reading {
        root: Root::Name(name),
        width,
        window: entire(width),
    }
}

/// All bits of an expression of so many bits, valued alone. Or want of memory.
pub fn whole_value(alloc: Global, value: VExpr, width: u32) -> Result<Reading, AllocError>
    ensures sound { IfOk result IsSound }
    ensures reads { IfOk result (ReadsValue (meaning value) width) }
    ensures names { IfOk result (λ r. RootNames (meaning value) r.root) }
{
    let braces = braced(alloc, value)?;
    Ok(Reading {
        root: Root::Value(braces),
        width,
        window: entire(width),
    })
}

/// The member with a number, of what has this type.
pub fn member_step(reading: Reading, of: &SvType, k: u32) -> Reading
    requires narrow { width_of of.now ≤ 4194304 }
    requires sound { IsSound reading }
    ensures sound { IsSound result }
    ensures reads { ReadsMember reading of.now k result }
    ensures root { result.root ≡ reading.root }
{
    Reading {
        root: reading.root,
        width: reading.width,
        window: member_at(of, k, reading.window),
    }
}

/// The element with a known index, or with one that has x or z; of what has this type.
pub fn element_step(reading: Reading, of: &SvType, index: Option<i128>) -> Reading
    requires narrow { width_of of.now ≤ 4194304 }
    requires index { IfSome index (λ k. unsigned_abs k ≤ 2 ^ 65) }
    requires sound { IsSound reading }
    ensures sound { IsSound result }
    ensures reads { ReadsElement reading of.now index result }
    ensures root { result.root ≡ reading.root }
{
    Reading {
        root: reading.root,
        width: reading.width,
        window: element_at(of, index, reading.window),
    }
}

/// The elements from one bound to the other, of what has this type.
pub fn between_step(reading: Reading, of: &SvType, left: i64, right: i64) -> Reading
    requires narrow { width_of of.now ≤ 4194304 }
    requires sound { IsSound reading }
    ensures sound { IsSound result }
    ensures reads { ReadsBetween reading of.now left right result }
    ensures root { result.root ≡ reading.root }
{
    Reading {
        root: reading.root,
        width: reading.width,
        window: between_at(of, left, right, reading.window),
    }
}
