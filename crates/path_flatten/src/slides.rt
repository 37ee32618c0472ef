//! Steps of select paths by an index that is known only when the text runs (IEEE 1800-2017 clauses 7.4.5 and 11.5.1).

ghost use Rattle.std.specs.Prelude.{◌≡◌, ◌≤◌, ◌*◌, true, length, [], ◌∷◌, IfOk, OnOk, MatchResult};
ghost use Rattle.picks.specs.Windows.{whole};
ghost use Rattle.sv_types.specs.Layouts.{layout, width_of};
ghost use Rattle.v_meaning.specs.Values as means;
ghost use Rattle.v_meaning.specs.Values.{meaning};
ghost use Rattle.eval_parts.specs.Places.{window_of};
ghost use Rattle.lowering_laws.specs.Terms as terms;
ghost use Rattle.path_flatten.specs.declared.readings.Root.TheVariants as roots;
ghost use Rattle.path_flatten.specs.Helping.{Grows};
ghost use Rattle.path_flatten.specs.Distances.{IsNarrow};
ghost use Rattle.path_flatten.specs.Stepping.{IsSound};
ghost use Rattle.path_flatten.specs.Naming.{RootNamesBoth};
ghost use Rattle.path_flatten.specs.Sliding.{IsEntire, IsWholeName, Slides, ReadsSlide, ReadsIndex, NamesSlide};

use crate::helpers::Helpers;
use crate::offsets::{Index, Offset, base_of, offset_of, passed_as};
use crate::readings::{Reading, Root, Slice, all_bits, select_call, with_select};
use eval_parts::{Window, bounds_of, entire};
use std::alloc::{AllocError, Global};
use sv_source::Text;
use sv_types::{SvType, width};
use v_build::slide;
use v_tree::VExpr;

/// Whether a window is all of so many bits.
fn is_entire(window: Window, bits: u32) -> bool
    ensures { result ≡ true → window_of window ≡ whole bits }
{
    if window.shift != 0 {
        return false;
    }
    if window.low != 0 {
        return false;
    }
    window.high == bits
}

/// Whether a reading of a name is all of it, and the name has selects: one of one bit has none.
fn is_selectable(width: u32, window: Window, of: u32) -> bool
    ensures { result ≡ true → IsEntire width window of }
{
    if width < 2 {
        return false;
    }
    if width != of {
        return false;
    }
    is_entire(window, of)
}

/// The name of a reading that is all of it, so many bits, and has selects. Or the reading.
fn name_of(reading: Reading, of: u32) -> Result<Text, Reading>
    ensures { MatchResult result (IsWholeName reading of) (λ r. r ≡ reading) }
{
    let Reading {
        root,
        width,
        window,
    } = reading;
    match root {
        Root::Name(name) => {
            if is_selectable(width, window, of) {
                Ok(name)
            } else {
                let root = Root::Name(name);
                Err(Reading {
                    root,
                    width,
                    window,
                })
            }
        }
        Root::Value(value) => {
            let root = Root::Value(value);
            Err(Reading {
                root,
                width,
                window,
            })
        }
    }
}

/// `name[offset +: n]`
fn slide_name(alloc: Global, of: Text, offset: VExpr, n: u32) -> Result<VExpr, AllocError>
    ensures { IfOk result (λ e. meaning e ≡ means.reference of (terms.slide (meaning offset) n ∷ [])) }
{
    let sel = slide(alloc, offset, n)?;
    let made = with_select(alloc, of, sel)?;
    Ok(made)
}

/// So many bits of those of a reading, which are `of`, from an offset on, by a call.
fn slide_call(
    alloc: Global,
    reading: Reading,
    of: u32,
    n: u32,
    offset: Offset,
    helpers: &mut Helpers,
) -> Result<VExpr, AllocError>
    requires sound { IsSound reading }
    requires offset { IsNarrow offset }
    ensures grows { OnOk result (Grows helpers.old helpers.new) }
    ensures slides { IfOk result (λ m. Slides reading of n offset helpers.new (meaning m)) }
    ensures names { IfOk result (λ m. NamesSlide reading.root offset (meaning m)) }
{
    let argument = passed_as(alloc, offset)?;
    let all = all_bits(alloc, reading, of, helpers)?;
    let slice = Slice {
        part: n,
        of,
        index: argument.bits,
    };
    let made = select_call(alloc, slice, all, argument.expr, helpers)?;
    Ok(made)
}

/// So many bits of those of a reading, from an offset on. A whole name of at least two bits has selects of its own.
fn slide_bits(
    alloc: Global,
    reading: Reading,
    of: u32,
    n: u32,
    offset: Offset,
    helpers: &mut Helpers,
) -> Result<VExpr, AllocError>
    requires sound { IsSound reading }
    requires offset { IsNarrow offset }
    ensures grows { OnOk result (Grows helpers.old helpers.new) }
    ensures slides { IfOk result (λ m. Slides reading of n offset helpers.new (meaning m)) }
    ensures names { IfOk result (λ m. NamesSlide reading.root offset (meaning m)) }
{
    match name_of(reading, of) {
        Ok(name) => {
            let made = slide_name(alloc, name, base_of(offset), n)?;
            Ok(made)
        }
        Err(other) => {
            let made = slide_call(alloc, other, of, n, offset, helpers)?;
            Ok(made)
        }
    }
}

/// A reading of an expression of so many bits, which don't depend on where it stands.
fn new_root(value: VExpr, bits: u32) -> Reading
    ensures root { result.root ≡ roots.Value value }
    ensures width { result.width ≡ bits }
    ensures window { window_of result.window ≡ whole bits }
    ensures sound { IsSound result }
{
    Reading {
        root: Root::Value(value),
        width: bits,
        window: entire(bits),
    }
}

/// An indexed part-select.
#[derive(Clone, Copy)]
pub struct PartSelect {
    /// Whether it is `+:`.
    pub up: bool,
    /// How many elements it selects.
    pub count: u32,
    /// How many bits they have.
    pub bits: u32,
}

/// So many elements from a lowered index on, of what has this type.
pub fn slide_step(
    alloc: Global,
    reading: Reading,
    of: &SvType,
    part: PartSelect,
    index: Index,
    helpers: &mut Helpers,
) -> Result<Reading, AllocError>
    requires narrow { width_of of.now ≤ 4194304 }
    requires index { index.width ≤ 64 }
    requires sound { IsSound reading }
    ensures grows { OnOk result (Grows helpers.old helpers.new) }
    ensures sound { IfOk result IsSound }
    ensures reads { IfOk result (λ r. part.bits ≡ part.count * length (layout of.now).element.two_state → ReadsSlide reading of.now part.up part.count index helpers.new r) }
    ensures names { IfOk result (λ r. RootNamesBoth reading.root (meaning index.expr) r.root) }
{
    let offset = offset_of(alloc, of, part.up, part.count, index)?;
    let value = slide_bits(alloc, reading, width(of), part.bits, offset, helpers)?;
    Ok(new_root(value, part.bits))
}

/// The element with a lowered index, of what has this type.
pub fn index_step(
    alloc: Global,
    reading: Reading,
    of: &SvType,
    index: Index,
    helpers: &mut Helpers,
) -> Result<Reading, AllocError>
    requires narrow { width_of of.now ≤ 4194304 }
    requires index { index.width ≤ 64 }
    requires sound { IsSound reading }
    ensures grows { OnOk result (Grows helpers.old helpers.new) }
    ensures sound { IfOk result IsSound }
    ensures reads { IfOk result (ReadsIndex reading of.now index helpers.new) }
    ensures names { IfOk result (λ r. RootNamesBoth reading.root (meaning index.expr) r.root) }
{
    let bits = bounds_of(of).element;
    let offset = offset_of(alloc, of, true, 1, index)?;
    let value = slide_bits(alloc, reading, width(of), bits, offset, helpers)?;
    Ok(new_root(value, bits))
}
