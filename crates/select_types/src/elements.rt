//! Elements (IEEE 1800-2017 clauses 7.4.5 and 11.5.1).

ghost use Rattle.std.specs.Prelude.{◌≡◌, IfOk};
ghost use Rattle.expr_type.specs.Answers.{Gives, source};
ghost use Rattle.expr_type.specs.Selects as select;
ghost use Rattle.operand_types.specs.Allowed.{IsNarrow};
ghost use Rattle.select_types.specs.Selected as made;
ghost use Rattle.select_types.specs.Selected.{GivesIf};

use crate::steps::selected;
use expr_type::{Halt, Source, Valued};
use operand_types::{element_of, is_indexed};
use std::alloc::{AllocError, Global};
use sv_source::Boxed;
use sv_types::{Expr, Form, SvType, width};

/// The most bits of an index.
const MOST_OF_INDEX: u32 = 64;

/// An index has at most 64 bits (E507).
pub fn is_index(text: Source<'_>, v: Valued) -> Result<Valued, Halt>
    requires { IsNarrow v }
    ensures value { Gives result (select.is_index (source text.entry) v) }
    ensures same { IfOk result (λ u. u ≡ v) }
{
    if width(&v.expr.of) > MOST_OF_INDEX {
        return Err(Halt::Breaks {
            at: v.first,
            rule: 507,
        });
    }
    Ok(v)
}

// A value and the index into it, or the base of a part of it.
#[derive(Drop)]
pub struct Indexed {
    /// What is selected from.
    pub from: Valued,
    /// The index or the base.
    pub index: Valued,
}

// The value and the index as parts of an expression.
#[derive(Drop)]
pub struct Boxes {
    /// What is selected from.
    pub from: Boxed<Expr>,
    /// The index or the base.
    pub index: Boxed<Expr>,
}

/// The value and the index as parts of an expression.
pub fn boxed(alloc: Global, parts: Indexed) -> Result<Boxes, AllocError>
    ensures from { IfOk result (λ b. b.from ≡ parts.from.expr) }
    ensures index { IfOk result (λ b. b.index ≡ parts.index.expr) }
{
    let Indexed { from, index } = parts;
    let from = Boxed::new(alloc, from.expr);
    let (from, index) = pairs::both(from, Boxed::new(alloc, index.expr))?;
    Ok(Boxes { from, index })
}

fn index_form(boxes: Boxes) -> Form
    ensures { result ≡ Form.Index boxes.from boxes.index }
{
    let Boxes { from, index } = boxes;
    Form::Index(from, index)
}

// An element of a type, of which values are indexed.
fn indexed_value(
    alloc: Global,
    text: Source<'_>,
    opening: u32,
    parts: Indexed,
    of: Result<SvType, AllocError>,
) -> Result<Valued, Halt>
    ensures value { GivesIf of (λ t. made.selected (source text.entry) opening parts.from.first t (Form.Index parts.from.expr parts.index.expr)) result }
    ensures narrow { IfOk result IsNarrow }
{
    let first = parts.from.first;
    let (of, boxes) = pairs::both(of, boxed(alloc, parts))?;
    selected(alloc, text, opening, first, of, index_form(boxes))
}

fn element_by(alloc: Global, text: Source<'_>, opening: u32, parts: Indexed) -> Result<Valued, Halt>
    ensures value { Gives result (select.element (source text.entry) opening parts.from parts.index) }
    ensures narrow { IfOk result IsNarrow }
{
    if !is_indexed(&parts.from.expr.of) {
        return Err(Halt::Breaks {
            at: opening,
            rule: 508,
        });
    }
    let of = element_of(alloc, &parts.from.expr.of);
    indexed_value(alloc, text, opening, parts, of)
}

/// An element of a value, at the `[` of its index. It breaks E508 where the value is an unpacked struct, and E701 where the element
/// has more than 65,536 bits.
pub fn element(
    alloc: Global,
    text: Source<'_>,
    opening: u32,
    v: Valued,
    i: Valued,
) -> Result<Valued, Halt>
    ensures value { Gives result (select.element (source text.entry) opening v i) }
    ensures narrow { IfOk result IsNarrow }
{
    element_by(alloc, text, opening, Indexed { from: v, index: i })
}
