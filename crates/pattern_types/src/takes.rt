//! What the members or elements of a type take of a pattern.

ghost use Rattle.std.specs.Prelude.{◌≡◌, ◌<◌, ◌*◌, ◌&&◌, length, map, IfOk, true, false};
ghost use Rattle.expr_type.specs.Answers.{source};
ghost use Rattle.expr_type.specs.Patterns.{has_members, times_over};
ghost use Rattle.pattern_types.specs.Keys.{all_near, all_stand, plain_key};
ghost use Rattle.pattern_types.specs.Meaning.{item_keys, items_in, keyed_keys, parts_in, times_of, values_of};
ghost use Rattle.pattern_types.specs.Places.{default_from, rest_at};
ghost use Rattle.pattern_types.specs.Far.{IsTakenFar, near_bounds};
ghost use Rattle.pattern_types.specs.Takes.{counts_fit, default_keys, halt_of, taken_of, TakesGive};

use crate::items::{default_place, has_members, is_default, keyed_count, place_count, rest_at};
use crate::keys::{all_near, all_stand, is_near, look_at_keys, repeated_keys};
use crate::looks::passes;
use crate::operand::{Item, Parts};
use expr_type::{Halt, Source};
use pattern_fit::{FitFail, Pattern, PatternItems, Rest, fit};
use std::alloc::{AllocError, Global};
use sv_types::SvType;

/// What the members or elements of a type take of a pattern.
#[derive(Drop)]
pub struct Taking {
    /// What stands behind `default`.
    pub rest: Rest,
    /// The number of the item behind `default`, if it is there.
    pub default: Option<usize>,
    /// How many other items there are.
    pub count: usize,
    /// What each member or element takes.
    pub takes: PatternItems,
}

// How many items stand behind `default`.
fn default_count(items: &[Item]) -> usize
    ensures { result ≡ length (default_keys (item_keys items.now)) }
{
    let mut n = 0;
    for item in items {
        if is_default(&item.key) {
            n += 1;
        }
    }
    n
}

// Whether a repeated pattern has as many items as its type has members or elements, and `default` stands at most once.
fn counts_fit(t: &SvType, times: u32, items: &[Item]) -> bool
    ensures { result ≡ counts_fit t.now times (item_keys items.now) }
{
    let all = times == 1 || u128::from(times) * items.len() as u128 == place_count(t);
    all && default_count(items) <= 1
}

// Whether each key stands for something, and the items are as many as they have to be.
fn may_cover(members: bool, t: &SvType, times: u32, items: &[Item]) -> bool
    ensures { result ≡ (all_stand members (keyed_keys (item_keys items.now)) && counts_fit t.now times (item_keys items.now)) }
{
    all_stand(members, items) && counts_fit(t, times, items)
}

// Whether the bounds of an array are near, which have 64 bits.
fn has_near_bounds(t: &SvType) -> bool
    ensures value { result ≡ near_bounds t.now }
    ensures always { result ≡ true }
{
    match t {
        SvType::Scalar { .. } => true,
        SvType::PackedArray { left, right, .. } => {
            is_near(i128::from(*left)) && is_near(i128::from(*right))
        }
        SvType::Struct { .. } => true,
        SvType::Union { .. } => true,
        SvType::Enum { .. } => true,
        SvType::UnpackedArray { left, right, .. } => {
            is_near(i128::from(*left)) && is_near(i128::from(*right))
        }
    }
}

// Whether an index among the keys that are taken so many times can't be that of an element.
fn is_any_far(members: bool, times: u32, items: &[Item]) -> bool
    ensures far { result ≡ true → IsTakenFar (all_near members (keyed_keys (item_keys items.now))) times }
    ensures near { result ≡ false → 0 < times → all_near members (keyed_keys (item_keys items.now)) ≡ true }
{
    times > 0 && !all_near(members, items)
}

// Whether a pattern has an index that no element of a type can have.
fn is_beyond(members: bool, t: &SvType, times: u32, items: &[Item]) -> bool
    ensures bounds { near_bounds t.now ≡ true }
    ensures far { result ≡ true → IsTakenFar (all_near members (keyed_keys (item_keys items.now))) times }
    ensures near { result ≡ false → 0 < times → all_near members (keyed_keys (item_keys items.now)) ≡ true }
{
    has_near_bounds(t) && is_any_far(members, times, items)
}

// Whether there are fewer than 2^32 keys.
fn is_short(times: u32, items: &[Item]) -> bool
    ensures { result ≡ true → times * length (keyed_keys (item_keys items.now)) < 4294967296 }
{
    u128::from(times) * (keyed_count(items) as u128) < 4_294_967_296
}

// A pattern without its values.
fn pattern(
    alloc: Global,
    text: Source<'_>,
    members: bool,
    p: Parts<'_>,
    default: Option<usize>,
) -> Result<Pattern, AllocError>
    requires { 0 < times_of (parts_in p) → all_near members (keyed_keys (item_keys (items_in (parts_in p)))) ≡ true }
    ensures keys { IfOk result (λ r. r.keys ≡ times_over (times_of (parts_in p.entry)) (map (plain_key (source text.entry) members) (keyed_keys (item_keys (items_in (parts_in p.entry)))))) }
    ensures rest { IfOk result (λ r. r.rest ≡ rest_at (values_of (source text.entry) (items_in (parts_in p.entry))) default) }
{
    let items = p.items;
    let keys = repeated_keys(alloc, text, members, items, p.times);
    let (keys, rest) = pairs::both(keys, rest_at(alloc, text, items, default))?;
    Ok(Pattern { keys, rest })
}

fn unfit(tick: u32) -> Halt
    ensures { result ≡ Halt.Breaks tick 505 }
{
    Halt::Breaks {
        at: tick,
        rule: 505,
    }
}

fn halt_of(tick: u32, fail: FitFail) -> Halt
    ensures { result ≡ halt_of tick fail }
{
    match fail {
        FitFail::Memory => Halt::Memory,
        FitFail::NoFit => unfit(tick),
    }
}

// What is taken of a pattern of which so many items are not behind `default`.
fn taking_of(
    tick: u32,
    pattern: Pattern,
    default: Option<usize>,
    count: usize,
    takes: Result<PatternItems, FitFail>,
) -> Result<Taking, Halt>
    ensures { result ≡ taken_of tick pattern default count takes }
{
    let Pattern { keys, rest } = pattern;
    drop(keys);
    match takes {
        Ok(takes) => Ok(Taking {
            rest,
            default,
            count,
            takes,
        }),
        Err(fail) => {
            drop(rest);
            Err(halt_of(tick, fail))
        }
    }
}

/// What the members or elements of a type take of a pattern. It breaks the rules on names where a key does, else E505 where its items
/// don't cover the members or elements once each. 2^32 items or more want more memory than there is.
#[tactic(auto, using(crate::proofs::Taking::takings))]
pub fn takes_of(alloc: Global, text: Source<'_>, t: &SvType, p: Parts<'_>) -> Result<Taking, Halt>
    ensures { TakesGive (source text.entry) (parts_in p.entry) t.now result }
{
    let members = has_members(t);
    let items = p.items;
    passes(look_at_keys(members, items))?;
    if !may_cover(members, t, p.times, items) {
        return Err(unfit(p.tick));
    }
    if is_beyond(members, t, p.times, items) {
        return Err(unfit(p.tick));
    }
    if !is_short(p.times, items) {
        return Err(Halt::Memory);
    }
    let default = default_place(items);
    let pattern = pattern(alloc, text, members, p, default)?;
    let takes = fit(alloc, t, &pattern);
    taking_of(p.tick, pattern, default, keyed_count(items), takes)
}
