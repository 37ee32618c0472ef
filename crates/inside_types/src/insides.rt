//! `inside` (IEEE 1800-2017 clause 11.4.13).

ghost use Rattle.std.specs.Prelude.{◌≡◌, ◌||◌, map, IfOk};
ghost use Rattle.expr_type.specs.Answers.{Gives, source};
ghost use Rattle.expr_type.specs.Operators as operator;
ghost use Rattle.expr_type.specs.Shapes as shape;
ghost use Rattle.operand_types.specs.Allowed.{IsNarrow};
ghost use Rattle.inside_types.specs.Alternatives.{AllNarrowIn, alternative, any_unpacked, first_of};
ghost use Rattle.inside_types.specs.Insides.{inside_rule, made, wide_inside};

use crate::alternatives::{
    Alternatives, choices, first_over, first_too_wide, first_wide_among, is_any_unpacked,
    most_compared, most_ordered, or_first,
};
use expr_type::{Halt, Source, Valued};
use operand_types::by_itself;
use std::alloc::Global;
use sv_source::Boxed;
use sv_types::Form;
use type_kinds::{is_unpacked, one_bit};

// A value and the items that it is compared with.
#[derive(Drop)]
struct Compared {
    value: Valued,
    items: Alternatives,
}

// The first operator that is too wide, in the order of the text: in the value, `inside` itself, or in an item.
fn first_wide(at: u32, parts: &Compared) -> Option<u32>
    requires value { IsNarrow parts.now.value }
    requires items { AllNarrowIn parts.now.items }
    ensures { result ≡ first_of (wide_inside at parts.now.value (map alternative parts.now.items)) }
{
    let items = parts.items.as_slice();
    let compared = most_compared(&parts.value, items);
    let ordered = most_ordered(&parts.value, items);
    let in_items = first_wide_among(&parts.value, items);
    let behind = or_first(first_over(at, ordered), in_items);
    or_first(first_too_wide(compared, &parts.value.arithmetic), behind)
}

// Whether one of the operands is unpacked.
fn is_unpacked_among(parts: &Compared) -> bool
    ensures { result ≡ (shape.is_unpacked parts.now.value.expr.of || any_unpacked parts.now.items) }
{
    is_unpacked(&parts.value.expr.of) || is_any_unpacked(parts.items.as_slice())
}

// The rules on what stands in `inside`.
fn may_compare(text: Source<'_>, at: u32, parts: &Compared) -> Result<(), Halt>
    requires value { IsNarrow parts.now.value }
    requires items { AllNarrowIn parts.now.items }
    ensures { Gives result (inside_rule (source text.entry) at parts.now.value (map alternative parts.now.items)) }
{
    if is_unpacked_among(parts) {
        return Err(Halt::Breaks { at, rule: 508 });
    }
    match first_wide(at, parts) {
        Some(wide) => Err(Halt::Breaks {
            at: wide,
            rule: 502,
        }),
        None => Ok(()),
    }
}

// `inside` over what may stand there.
fn compare(alloc: Global, text: Source<'_>, parts: Compared) -> Result<Valued, Halt>
    ensures value { Gives result (made (source text.entry) parts.value (map alternative parts.items)) }
    ensures narrow { IfOk result IsNarrow }
{
    let first = parts.value.begins;
    let Compared { value, items } = parts;
    let value = Boxed::new(alloc, value.expr);
    let (value, choices) = pairs::both(value, choices(alloc, items))?;
    Ok(by_itself(alloc, text, first, one_bit(), Form::Inside(value, choices))?)
}

#[tactic(auto, using(crate::proofs::Rules::behind))]
fn inside_by_rules(
    alloc: Global,
    text: Source<'_>,
    at: u32,
    parts: Compared,
) -> Result<Valued, Halt>
    requires value { IsNarrow parts.value }
    requires items { AllNarrowIn parts.items }
    ensures value { Gives result (operator.inside_of (source text.entry) at parts.value (map alternative parts.items)) }
    ensures narrow { IfOk result IsNarrow }
{
    match may_compare(text, at, &parts) {
        Err(halt) => Err(halt),
        Ok(()) => compare(alloc, text, parts),
    }
}

/// `inside` at its word, of a value and of items of at most 2^22 bits each. It breaks E508 where one of them is unpacked, and E502,
/// at the first operator in the order of the text, where one does arithmetic, or `inside` compares by order, at more than 128 bits.
pub fn inside_of(
    alloc: Global,
    text: Source<'_>,
    at: u32,
    v: Valued,
    items: Alternatives,
) -> Result<Valued, Halt>
    requires value { IsNarrow v }
    requires items { AllNarrowIn items }
    ensures value { Gives result (operator.inside_of (source text.entry) at v (map alternative items)) }
    ensures narrow { IfOk result IsNarrow }
{
    inside_by_rules(alloc, text, at, Compared { value: v, items })
}
