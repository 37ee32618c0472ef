//! What patterns make of a type where nothing in them breaks a rule.

ghost use Rattle.std.specs.Prelude.{◌≡◌, ◌<◌, get_or, map, option_copied, replicate, zip, length, IfOk};
ghost use Rattle.expr_type.specs.Answers.{Gives, source};
ghost use Rattle.expr_type.specs.Operands as rule;
ghost use Rattle.expr_type.specs.Operators.{expr_at};
ghost use Rattle.expr_type.specs.Patterns.{types_in, made, value_of};
ghost use Rattle.expr_type.specs.Typings.{all_of};
ghost use Rattle.sv_types.specs.declared.expression.Form.TheVariants as F;
ghost use Rattle.pattern_types.specs.Filling.{at_place, item_number, spread_of, both_of, Adds, Fills, MakesPattern};
ghost use Rattle.pattern_types.specs.Leaves.{member_types};
ghost use Rattle.pattern_types.specs.Meaning.{fitted_in, items_in, operand_of, parts_in, pattern_of, tick_of, written_items};
ghost use Rattle.pattern_laws.specs.Reasons.{IsWhole};

use crate::items::{past, place_count, takes_itself};
use crate::operand::{Item, Operand, Parts, listed};
use crate::takes::{Taking, takes_of};
use crate::wanted::remainder;
use expr_copies::copy_expr;
use expr_type::{Halt, Source};
use given_types::{copy_type, spot_at};
use pattern_fit::{PatternItem, Rest};
use std::alloc::{AllocError, Global};
use sv_source::Items;
use sv_types::{Expr, Exprs, Form, Member, SvType};

// The number among all items of a pattern of the one that a member or element takes.
fn item_number(taking: &Taking, take: PatternItem) -> Option<usize>
    ensures { result ≡ item_number taking.now.default taking.now.count take }
{
    match take {
        PatternItem::Item(m) => Some(past(taking.default, remainder(m, taking.count))),
        PatternItem::Default => taking.default,
        PatternItem::Spread => taking.default,
    }
}

// What a member or element takes.
#[tactic(auto, using(crate::proofs::Fronts::reading))]
fn take_at(takes: &[PatternItem], n: usize) -> PatternItem
    requires { n < length takes.now }
    ensures { result ≡ get_or takes.now n result }
{
    takes[n]
}

// The item that a member or element takes.
fn taken<'p>(taking: &Taking, take: PatternItem, items: &'p [Item]) -> Option<&'p Item>
    ensures { option_copied result ≡ at_place items.now (item_number taking.now.default taking.now.count take) }
{
    let number = item_number(taking, take)?;
    sv_source::at(items, number)
}

// Two values of which each may be missing.
fn both<A: Drop, B: Drop>(a: Result<A, AllocError>, b: Result<B, Halt>) -> Result<(A, B), Halt>
    ensures { result ≡ both_of a b }
{
    let b = b?;
    let a = a?;
    Ok((a, b))
}

// A list with one more item behind it.
fn with_last<T: Drop>(list: Result<Items<T>, Halt>, last: Result<T, Halt>) -> Result<Items<T>, Halt>
    ensures { Adds list last result }
{
    let mut list = list?;
    list.push(last?)?;
    Ok(list)
}

// A pattern of a type by what its members or elements are given.
fn pattern_expr(
    alloc: Global,
    text: Source<'_>,
    at: u32,
    t: &SvType,
    items: Result<Exprs, Halt>,
) -> Result<Expr, Halt>
    ensures { MakesPattern (source text.entry) at t.now items result }
{
    let head = pairs::both(copy_type(alloc, t), spot_at(alloc, text, at));
    let ((of, spot), items) = both(head, items)?;
    Ok(Expr {
        of,
        spot,
        form: Form::Pattern(items),
    })
}

/// A value that is given to a type, where it breaks no rule.
#[cycle(build)]
pub fn build_value(alloc: Global, text: Source<'_>, t: &SvType, v: &Operand) -> Result<Expr, Halt>
    requires { IsWhole (rule.passed (source text) t.now (operand_of (source text) v.now)) }
    ensures { Gives result (rule.passed (source text.entry) t.now (operand_of (source text.entry) v.now)) }
{
    match v {
        Operand::Plain(value) => Ok(copy_expr(alloc, &value.expr)?),
        Operand::Pattern { tick, times, items } => build_pattern(
            alloc,
            text,
            *tick,
            t,
            listed(tick, times, items),
        ),
        Operand::Stream(value) => Err(Halt::Breaks {
            at: value.first,
            rule: 512,
        }),
    }
}

/// A pattern that is given to a type, where it breaks no rule.
#[cycle(build)]
pub fn build_pattern(
    alloc: Global,
    text: Source<'_>,
    at: u32,
    t: &SvType,
    p: Parts<'_>,
) -> Result<Expr, Halt>
    requires { IsWhole (fitted_in (source text) (pattern_of (source text) (parts_in p)) at t.now) }
    ensures { Gives result (fitted_in (source text.entry) (pattern_of (source text.entry) (parts_in p.entry)) at t.now) }
{
    let taking = takes_of(alloc, text, t, p)?;
    let items = build_items(alloc, text, t, &taking, p);
    drop(taking);
    pattern_expr(alloc, text, at, t, items)
}

// What the members or elements of a type are given.
#[cycle(build)]
fn build_items(
    alloc: Global,
    text: Source<'_>,
    t: &SvType,
    taking: &Taking,
    p: Parts<'_>,
) -> Result<Exprs, Halt>
    requires fills { Fills (source text) (parts_in p) taking.now }
    requires length { length taking.now.takes ≡ length (types_in t.now) }
    requires whole { IsWhole (all_of (map (made (source text) (tick_of (parts_in p)) (written_items (source text) (items_in (parts_in p)))) (zip taking.now.takes (types_in t.now)))) }
    ensures { Gives result (all_of (map (made (source text.entry) (tick_of (parts_in p.entry)) (written_items (source text.entry) (items_in (parts_in p.entry)))) (zip taking.now.takes (types_in t.now)))) }
{
    match t {
        SvType::Struct { members, .. } => {
            build_members(alloc, text, members.as_slice(), taking, p)
        }
        SvType::PackedArray { item, .. } => build_elements(alloc, text, item.get(), taking, p),
        SvType::UnpackedArray { item, .. } => build_elements(alloc, text, item.get(), taking, p),
        SvType::Scalar { .. } => Ok(Exprs::new(alloc)),
        SvType::Union { .. } => Ok(Exprs::new(alloc)),
        SvType::Enum { .. } => Ok(Exprs::new(alloc)),
    }
}

#[cycle(build)]
fn build_members(
    alloc: Global,
    text: Source<'_>,
    members: &[Member],
    taking: &Taking,
    p: Parts<'_>,
) -> Result<Exprs, Halt>
    requires fills { Fills (source text) (parts_in p) taking.now }
    requires length { length taking.now.takes ≡ length members.now }
    requires whole { IsWhole (all_of (map (made (source text) (tick_of (parts_in p)) (written_items (source text) (items_in (parts_in p)))) (zip taking.now.takes (member_types members.now)))) }
    ensures { Gives result (all_of (map (made (source text.entry) (tick_of (parts_in p.entry)) (written_items (source text.entry) (items_in (parts_in p.entry)))) (zip taking.now.takes (member_types members.now)))) }
{
    let takes = taking.takes.as_slice();
    let mut items = Ok(Exprs::new(alloc));
    for (n, member) in members.iter().enumerate() {
        items = with_last(
            items,
            build_place(alloc, text, &member.of, take_at(takes, n), taking, p),
        );
    }
    items
}

#[cycle(build)]
fn build_elements(
    alloc: Global,
    text: Source<'_>,
    element: &SvType,
    taking: &Taking,
    p: Parts<'_>,
) -> Result<Exprs, Halt>
    requires fills { Fills (source text) (parts_in p) taking.now }
    requires whole { IsWhole (all_of (map (made (source text) (tick_of (parts_in p)) (written_items (source text) (items_in (parts_in p)))) (zip taking.now.takes (replicate (length taking.now.takes) element.now)))) }
    ensures { Gives result (all_of (map (made (source text.entry) (tick_of (parts_in p.entry)) (written_items (source text.entry) (items_in (parts_in p.entry)))) (zip taking.now.takes (replicate (length taking.now.takes) element.now)))) }
{
    let takes = taking.takes.as_slice();
    let mut items = Ok(Exprs::new(alloc));
    for n in 0..takes.len() {
        items = with_last(
            items,
            build_place(alloc, text, element, take_at(takes, n), taking, p),
        );
    }
    items
}

// What a member or element is given.
#[cycle(build)]
fn build_place(
    alloc: Global,
    text: Source<'_>,
    t: &SvType,
    take: PatternItem,
    taking: &Taking,
    p: Parts<'_>,
) -> Result<Expr, Halt>
    requires fills { Fills (source text) (parts_in p) taking.now }
    requires whole { IsWhole (made (source text) (tick_of (parts_in p)) (written_items (source text) (items_in (parts_in p))) (take, t.now)) }
    ensures { Gives result (made (source text.entry) (tick_of (parts_in p.entry)) (written_items (source text.entry) (items_in (parts_in p.entry))) (take, t.now)) }
{
    match taken(taking, take, p.items) {
        None => Err(Halt::Quiet),
        Some(item) => match take {
            PatternItem::Item(_) => build_value(alloc, text, t, &item.value),
            PatternItem::Default => build_default(
                alloc,
                text,
                p.tick,
                t,
                &taking.rest,
                &item.value,
            ),
            PatternItem::Spread => build_default(alloc, text, p.tick, t, &taking.rest, &item.value),
        },
    }
}

// What the value of `default` makes of a type.
#[cycle(build)]
fn build_default(
    alloc: Global,
    text: Source<'_>,
    tick: u32,
    t: &SvType,
    rest: &Rest,
    v: &Operand,
) -> Result<Expr, Halt>
    requires { IsWhole (spread_of (source text) tick rest.now (operand_of (source text) v.now) t.now) }
    ensures { Gives result (spread_of (source text.entry) tick rest.now (operand_of (source text.entry) v.now) t.now) }
{
    if takes_itself(rest, t) {
        return build_value(alloc, text, t, v);
    }
    match t {
        SvType::Struct { members, .. } => {
            let items = spread_members(alloc, text, tick, members.as_slice(), rest, v);
            pattern_expr(alloc, text, tick, t, items)
        }
        SvType::PackedArray { item, .. } => {
            let count = place_count(t);
            let items = spread_elements(alloc, text, tick, count, item.get(), rest, v);
            pattern_expr(alloc, text, tick, t, items)
        }
        SvType::UnpackedArray { item, .. } => {
            let count = place_count(t);
            let items = spread_elements(alloc, text, tick, count, item.get(), rest, v);
            pattern_expr(alloc, text, tick, t, items)
        }
        SvType::Scalar { .. } => pattern_expr(alloc, text, tick, t, Ok(Exprs::new(alloc))),
        SvType::Union { .. } => pattern_expr(alloc, text, tick, t, Ok(Exprs::new(alloc))),
        SvType::Enum { .. } => pattern_expr(alloc, text, tick, t, Ok(Exprs::new(alloc))),
    }
}

#[cycle(build)]
fn spread_members(
    alloc: Global,
    text: Source<'_>,
    tick: u32,
    members: &[Member],
    rest: &Rest,
    v: &Operand,
) -> Result<Exprs, Halt>
    requires { IsWhole (all_of (map (spread_of (source text) tick rest.now (operand_of (source text) v.now)) (member_types members.now))) }
    ensures { Gives result (all_of (map (spread_of (source text.entry) tick rest.now (operand_of (source text.entry) v.now)) (member_types members.now))) }
{
    let mut items = Ok(Exprs::new(alloc));
    for member in members {
        items = with_last(items, build_default(alloc, text, tick, &member.of, rest, v));
    }
    items
}

#[cycle(build)]
fn spread_elements(
    alloc: Global,
    text: Source<'_>,
    tick: u32,
    count: u128,
    element: &SvType,
    rest: &Rest,
    v: &Operand,
) -> Result<Exprs, Halt>
    requires { IsWhole (all_of (map (spread_of (source text) tick rest.now (operand_of (source text) v.now)) (replicate count element.now))) }
    ensures { Gives result (all_of (map (spread_of (source text.entry) tick rest.now (operand_of (source text.entry) v.now)) (replicate count element.now))) }
{
    let mut items = Ok(Exprs::new(alloc));
    for _n in 0..count {
        items = with_last(items, build_default(alloc, text, tick, element, rest, v));
    }
    items
}
