//! Parts (IEEE 1800-2017 clauses 7.4.5, 7.4.6 and 11.5.1).

ghost use Rattle.std.specs.Prelude.{◌≡◌, ◌≤◌, ◌-ℤ◌, pos, unsigned_abs, IfOk};
ghost use Rattle.expr_type.specs.Answers.{Gives, source};
ghost use Rattle.expr_type.specs.Selects as select;
ghost use Rattle.operand_types.specs.Allowed.{IsNarrow};
ghost use Rattle.select_types.specs.Selected as made;
ghost use Rattle.select_types.specs.Selected.{GivesIf, IsWidth};
ghost use Rattle.sv_types.specs.Layouts.{width_of};

use crate::elements::{Boxes, Indexed, boxed};
use crate::steps::selected;
use expr_type::{Halt, Number, Source, Valued};
use operand_types::{bounds_of, element_of, is_unpacked};
use std::alloc::{AllocError, Global};
use sv_source::Boxed;
use sv_types::{Form, SvType};

// The array of the elements of a type between two bounds.
fn part_type(alloc: Global, t: &SvType, left: i64, right: i64) -> Result<SvType, AllocError>
    ensures { IfOk result (λ p. p ≡ select.part_type t.now left right) }
{
    let element = element_of(alloc, t)?;
    let item = Boxed::new(alloc, element)?;
    Ok(SvType::PackedArray {
        left,
        right,
        signed: false,
        item,
    })
}

// Whether indices fall from the left bound to the right one.
fn falls(left: i64, right: i64) -> bool
    ensures { result ≡ select.falls left right }
{
    right <= left
}

// Whether bounds go the other way than those of what is selected from.
fn goes_wrong(t: &SvType, left: i64, right: i64) -> bool
    requires { width_of t.now ≤ 4194304 }
    ensures { result ≡ select.goes_wrong t.now left right }
{
    let bounds = bounds_of(t);
    if falls(bounds.left, bounds.right) {
        !falls(left, right)
    } else {
        !falls(right, left)
    }
}

// A part of a value, of a type.
fn parted(
    alloc: Global,
    text: Source<'_>,
    opening: u32,
    v: Valued,
    left: i64,
    right: i64,
    of: Result<SvType, AllocError>,
) -> Result<Valued, Halt>
    ensures value { GivesIf of (λ t. made.selected (source text.entry) opening v.first t (Form.Part v.expr left right)) result }
    ensures narrow { IfOk result IsNarrow }
{
    let first = v.first;
    let (from, of) = pairs::both(Boxed::new(alloc, v.expr), of)?;
    let form = Form::Part { from, left, right };
    selected(alloc, text, opening, first, of, form)
}

/// A part of a value of at most 2^22 bits between two constant bounds, at its `[`. It breaks E508 where the value is unpacked,
/// E411, at the left bound, where the bounds go in the wrong direction, and E701 where the part has more than 65,536 bits.
pub fn part(
    alloc: Global,
    text: Source<'_>,
    opening: u32,
    v: Valued,
    left: Number,
    right: Number,
) -> Result<Valued, Halt>
    requires { IsNarrow v }
    ensures value { Gives result (select.part (source text.entry) opening v left right) }
    ensures narrow { IfOk result IsNarrow }
{
    if is_unpacked(&v.expr.of) {
        return Err(Halt::Breaks {
            at: opening,
            rule: 508,
        });
    }
    if goes_wrong(&v.expr.of, left.number, right.number) {
        return Err(Halt::Breaks {
            at: left.first,
            rule: 411,
        });
    }
    let of = part_type(alloc, &v.expr.of, left.number, right.number);
    parted(alloc, text, opening, v, left.number, right.number, of)
}

fn slide_form(boxes: Boxes, up: bool, width: u32) -> Form
    ensures { result ≡ Form.Slide boxes.from boxes.index width up }
{
    let Boxes { from, index } = boxes;
    Form::Slide {
        from,
        base: index,
        width,
        up,
    }
}

// A part of a value from a base on, of a type.
fn slid(
    alloc: Global,
    text: Source<'_>,
    opening: u32,
    up: bool,
    parts: Indexed,
    width: u32,
    of: Result<SvType, AllocError>,
) -> Result<Valued, Halt>
    ensures value { GivesIf of (λ t. made.selected (source text.entry) opening parts.from.first t (Form.Slide parts.from.expr parts.index.expr width up)) result }
    ensures narrow { IfOk result IsNarrow }
{
    let first = parts.from.first;
    let (of, boxes) = pairs::both(of, boxed(alloc, parts))?;
    selected(
        alloc,
        text,
        opening,
        first,
        of,
        slide_form(boxes, up, width),
    )
}

// The array of so many elements of a type.
fn slide_type(alloc: Global, t: &SvType, width: u32) -> Result<SvType, AllocError>
    ensures { IfOk result (λ p. p ≡ select.part_type t.now (pos width -ℤ pos 1) (pos 0)) }
{
    part_type(alloc, t, i64::from(width) - 1, 0)
}

fn slide_by(
    alloc: Global,
    text: Source<'_>,
    opening: u32,
    up: bool,
    parts: Indexed,
    width: u32,
) -> Result<Valued, Halt>
    ensures value { Gives result (select.slide (source text.entry) opening up parts.from parts.index (pos width)) }
    ensures narrow { IfOk result IsNarrow }
{
    if is_unpacked(&parts.from.expr.of) {
        return Err(Halt::Breaks {
            at: opening,
            rule: 508,
        });
    }
    let of = slide_type(alloc, &parts.from.expr.of, width);
    slid(alloc, text, opening, up, parts, width, of)
}

// A width as a number of elements.
#[tactic(auto, using(crate::proofs::Longer::widths))]
fn elements_in(width: Number) -> u32
    requires { IsWidth width.number }
    ensures { pos result ≡ width.number }
{
    width.number as u32
}

/// A part of a value with a constant width from a base on, up or down, at its `[`. It breaks E508 where the value is unpacked, and
/// E701 where the part has more than 65,536 bits.
pub fn slide(
    alloc: Global,
    text: Source<'_>,
    opening: u32,
    up: bool,
    v: Valued,
    i: Valued,
    width: Number,
) -> Result<Valued, Halt>
    requires { IsWidth width.number }
    ensures value { Gives result (select.slide (source text.entry) opening up v i width.number) }
    ensures narrow { IfOk result IsNarrow }
{
    let elements = elements_in(width);
    let parts = Indexed { from: v, index: i };
    slide_by(alloc, text, opening, up, parts, elements)
}
