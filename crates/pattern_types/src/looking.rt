//! Where what is given to a type breaks a rule: each item of a pattern is looked at in the order of the text, for each type that takes
//! it, before anything is made.

ghost use Rattle.std.specs.Prelude.{◌≡◌, length, flat_map, replicate, zip, IfOk};
ghost use Rattle.expr_type.specs.Answers.{source, reason};
ghost use Rattle.expr_type.specs.Operands as rule;
ghost use Rattle.expr_type.specs.Patterns.{types_in, tries};
ghost use Rattle.expr_type.specs.Typings.{all_of};
ghost use Rattle.pattern_types.specs.Leaves.{leaves_of, length_behind, member_types, wanted_in, wanted_types};
ghost use Rattle.pattern_types.specs.Meaning.{fitted_in, operand_of, parts_in, pattern_of, tick_of, written_items};
ghost use Rattle.pattern_laws.specs.Reasons.{tried_over, or_alone};
ghost use Rattle.pattern_types.specs.Reasons.{reason_of, tried_of};

use crate::items::takes_itself;
use crate::looks::{Look, Tried, followed_by, lesser_tried, look_of};
use crate::operand::{Item, Operand, Parts, listed};
use crate::takes::{Taking, takes_of};
use crate::wanted::{Wanted, any_wants, number_behind, wanted_at, wants};
use expr_type::Source;
use given_types::{is_above, may_give};
use pattern_fit::Rest;
use std::alloc::{AllocError, Global};
use sv_types::{Member, SvType};

// What an operand shows to which nothing is given.
#[tactic(auto, using(crate::proofs::Values::alone))]
fn look_alone(text: Source<'_>, v: &Operand) -> Look
    ensures { reason_of result ≡ reason (rule.is_value (source text.entry) (operand_of (source text.entry) v.now)) }
{
    match v {
        Operand::Plain(_) => Look::Fine,
        Operand::Pattern { tick, .. } => Look::Breaks {
            at: *tick,
            rule: 505,
        },
        Operand::Stream(value) => Look::Breaks {
            at: value.first,
            rule: 512,
        },
    }
}

fn or_alone(text: Source<'_>, v: &Operand, tried: Tried) -> Look
    ensures { reason_of result ≡ or_alone (reason (rule.is_value (source text.entry) (operand_of (source text.entry) v.now))) (tried_of tried) }
{
    match tried {
        None => look_alone(text, v),
        Some(look) => look,
    }
}

// What is made may have at most 65,536 bits.
fn length_behind(items: Look, tick: u32, t: &SvType) -> Look
    ensures { reason_of result ≡ length_behind (reason_of items) tick t.now }
{
    match items {
        Look::Fine => {
            if is_above(65_536, t) {
                Look::Breaks {
                    at: tick,
                    rule: 701,
                }
            } else {
                Look::Fine
            }
        }
        Look::Quiet => items,
        Look::Breaks { .. } => items,
    }
}

/// What a value shows that is given to a type.
#[cycle(look)]
#[tactic(auto, using(crate::proofs::Values::values))]
pub fn look_at_value(
    alloc: Global,
    text: Source<'_>,
    t: &SvType,
    v: &Operand,
) -> Result<Look, AllocError>
    ensures { IfOk result (λ l. reason_of l ≡ reason (rule.passed (source text.entry) t.now (operand_of (source text.entry) v.now))) }
{
    match v {
        Operand::Plain(value) => match may_give(text, t, value) {
            Ok(()) => Ok(Look::Fine),
            Err(halt) => look_of(halt),
        },
        Operand::Pattern { tick, times, items } => look_at_pattern(
            alloc,
            text,
            t,
            listed(tick, times, items),
        ),
        Operand::Stream(value) => Ok(Look::Breaks {
            at: value.first,
            rule: 512,
        }),
    }
}

/// What a pattern shows that is given to a type.
#[cycle(look)]
pub fn look_at_pattern(
    alloc: Global,
    text: Source<'_>,
    t: &SvType,
    p: Parts<'_>,
) -> Result<Look, AllocError>
    ensures { IfOk result (λ l. reason_of l ≡ reason (fitted_in (source text.entry) (pattern_of (source text.entry) (parts_in p.entry)) (tick_of (parts_in p.entry)) t.now)) }
{
    match takes_of(alloc, text, t, p) {
        Err(halt) => look_of(halt),
        Ok(taking) => {
            let items = look_at_items(alloc, text, t, &taking, p.items);
            drop(taking);
            Ok(length_behind(items?, p.tick, t))
        }
    }
}

// What the items of a pattern show.
#[cycle(look)]
fn look_at_items(
    alloc: Global,
    text: Source<'_>,
    t: &SvType,
    taking: &Taking,
    items: &[Item],
) -> Result<Look, AllocError>
    requires long { length taking.now.takes ≡ length (types_in t.now) }
    ensures { IfOk result (λ l. reason_of l ≡ reason (all_of (tries (source text.entry) taking.now.count taking.now.rest (zip taking.now.takes (types_in t.now)) 0 (written_items (source text.entry) items.now)))) }
{
    let mut n = 0;
    let mut seen = Look::Fine;
    for item in items {
        let wanted = wanted_at(&item.key, n);
        let tried = look_at_places(alloc, text, t, taking, wanted, &item.value)?;
        seen = followed_by(seen, or_alone(text, &item.value, tried));
        n = number_behind(wanted, n);
    }
    Ok(seen)
}

// What an item shows in those members or elements of a type that take it.
#[cycle(look)]
fn look_at_places(
    alloc: Global,
    text: Source<'_>,
    t: &SvType,
    taking: &Taking,
    wanted: Wanted,
    v: &Operand,
) -> Result<Tried, AllocError>
    requires long { length taking.now.takes ≡ length (types_in t.now) }
    ensures { IfOk result (λ o. tried_of o ≡ tried_over (source text.entry) (operand_of (source text.entry) v.now) (wanted_types wanted taking.now.count taking.now.rest (zip taking.now.takes (types_in t.now)))) }
{
    match t {
        SvType::Struct { members, .. } => {
            look_at_members(alloc, text, members.as_slice(), taking, wanted, v)
        }
        SvType::PackedArray { item, .. } => {
            look_at_elements(alloc, text, item.get(), taking, wanted, v)
        }
        SvType::UnpackedArray { item, .. } => {
            look_at_elements(alloc, text, item.get(), taking, wanted, v)
        }
        SvType::Scalar { .. } => Ok(None),
        SvType::Union { .. } => Ok(None),
        SvType::Enum { .. } => Ok(None),
    }
}

#[cycle(look)]
fn look_at_members(
    alloc: Global,
    text: Source<'_>,
    members: &[Member],
    taking: &Taking,
    wanted: Wanted,
    v: &Operand,
) -> Result<Tried, AllocError>
    requires long { length taking.now.takes ≡ length members.now }
    ensures { IfOk result (λ o. tried_of o ≡ tried_over (source text.entry) (operand_of (source text.entry) v.now) (wanted_types wanted taking.now.count taking.now.rest (zip taking.now.takes (member_types members.now)))) }
{
    let takes = taking.takes.as_slice();
    let mut seen: Tried = None;
    for (n, member) in members.iter().enumerate() {
        if wants(wanted, taking.count, takes[n]) {
            let look = look_at_place(alloc, text, &member.of, &taking.rest, wanted, v)?;
            seen = lesser_tried(seen, look);
        }
    }
    Ok(seen)
}

// All elements are of one type: what one of them shows, the others show.
#[cycle(look)]
fn look_at_elements(
    alloc: Global,
    text: Source<'_>,
    element: &SvType,
    taking: &Taking,
    wanted: Wanted,
    v: &Operand,
) -> Result<Tried, AllocError>
    ensures { IfOk result (λ o. tried_of o ≡ tried_over (source text.entry) (operand_of (source text.entry) v.now) (wanted_types wanted taking.now.count taking.now.rest (zip taking.now.takes (replicate (length taking.now.takes) element.now)))) }
{
    if !any_wants(wanted, taking.count, taking.takes.as_slice()) {
        return Ok(None);
    }
    look_at_place(alloc, text, element, &taking.rest, wanted, v)
}

// What an item shows in a member or element that takes it.
#[cycle(look)]
fn look_at_place(
    alloc: Global,
    text: Source<'_>,
    t: &SvType,
    rest: &Rest,
    wanted: Wanted,
    v: &Operand,
) -> Result<Tried, AllocError>
    ensures { IfOk result (λ o. tried_of o ≡ tried_over (source text.entry) (operand_of (source text.entry) v.now) (wanted_in wanted rest.now t.now)) }
{
    match wanted {
        Wanted::Default => look_at_leaves(alloc, text, t, rest, v),
        Wanted::Numbered(_) => Ok(Some(look_at_value(alloc, text, t, v)?)),
    }
}

// What the value of `default` shows on its way into members and elements.
#[cycle(look)]
fn look_at_leaves(
    alloc: Global,
    text: Source<'_>,
    t: &SvType,
    rest: &Rest,
    v: &Operand,
) -> Result<Tried, AllocError>
    ensures { IfOk result (λ o. tried_of o ≡ tried_over (source text.entry) (operand_of (source text.entry) v.now) (leaves_of rest.now t.now)) }
{
    if takes_itself(rest, t) {
        return Ok(Some(look_at_value(alloc, text, t, v)?));
    }
    match t {
        SvType::Struct { members, .. } => { look_at_all(alloc, text, members.as_slice(), rest, v) }
        SvType::PackedArray { item, .. } => look_at_leaves(alloc, text, item.get(), rest, v),
        SvType::UnpackedArray { item, .. } => look_at_leaves(alloc, text, item.get(), rest, v),
        SvType::Scalar { .. } => Ok(None),
        SvType::Union { .. } => Ok(None),
        SvType::Enum { .. } => Ok(None),
    }
}

#[cycle(look)]
fn look_at_all(
    alloc: Global,
    text: Source<'_>,
    members: &[Member],
    rest: &Rest,
    v: &Operand,
) -> Result<Tried, AllocError>
    ensures { IfOk result (λ o. tried_of o ≡ tried_over (source text.entry) (operand_of (source text.entry) v.now) (flat_map (leaves_of rest.now) (member_types members.now))) }
{
    let mut seen: Tried = None;
    for member in members {
        let look = look_at_leaves(alloc, text, &member.of, rest, v)?;
        seen = lesser_tried(seen, look);
    }
    Ok(seen)
}
