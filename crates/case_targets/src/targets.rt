//! Targets for each number that an index may have which selects from a part-select.

ghost use Rattle.std.specs.Prelude.{◌≤◌, ◌^◌, [], ◌∷◌, unsigned_abs, IfOk, OnOk};
ghost use Rattle.sv_types.specs.Expressions.{meaning};
ghost use Rattle.target_flatten.specs.Owning.{AllOwn};
ghost use Rattle.target_walk.specs.Giving.{IsSmall, AllSmall};
ghost use Rattle.case_targets.specs.declared.indices.PathIndex.TheVariants as indices;
ghost use Rattle.case_targets.specs.Spreading.{AllShort, IsShaped, Spreads, SpreadsFlat, SpreadsBetween, AddsCase, KeepsOwn, all_of};
ghost use Rattle.case_targets.specs.Naming.{NamesEach, KeepsNames, PlainOf};

use crate::cases::{case_of, put_case};
use crate::indices::{PathIndex, with_given};
use filled_paths::{Numbers, numbers_at};
use path_flatten::Index;
use std::alloc::{AllocError, Global};
use sv_source::Text;
use sv_types::Expr;
use target_flatten::{Image, Writes};
use target_walk::{Given, flatten_target, room_of};

/// Targets for a path with indices of which none is left.
fn flat(
    alloc: Global,
    name: &Text,
    bits: u32,
    e: &Expr,
    done: &[Given],
) -> Result<Writes, AllocError>
    requires narrow { (meaning e.now).widest ≤ 4194304 }
    requires small { AllSmall done.now }
    ensures writes { IfOk result (SpreadsFlat bits e.now done.now) }
    ensures names { IfOk result (NamesEach bits e.now (all_of done.now [])) }
    ensures own { IfOk result (AllOwn name.now bits) }
    ensures plain { IfOk result (PlainOf name.now (all_of done.now [])) }
{
    let name = name.copy(alloc)?;
    let image = Image {
        name,
        bits,
        room: room_of(e, done, bits),
    };
    let made = flatten_target(alloc, &image, e, done)?;
    Ok(made.writes)
}

/// The targets for one number that an index may have, under the condition that it has it.
#[cycle(spread)]
fn add_case(
    alloc: Global,
    name: &Text,
    bits: u32,
    e: &Expr,
    done: &[Given],
    i: &Index,
    rest: &[PathIndex],
    k: i128,
    all: &mut Writes,
) -> Result<(), AllocError>
    requires narrow { (meaning e.now).widest ≤ 4194304 }
    requires shaped { IsShaped e.now (all_of done.now (indices.InPart i.now ∷ rest.now)) }
    requires done { AllSmall done.now }
    requires short { i.now.width ≤ 64 }
    requires rest { AllShort rest.now }
    requires near { unsigned_abs k ≤ 2 ^ 64 }
    ensures case { OnOk result (AddsCase bits e.now done.now i.now rest.now k all.old all.new) }
    ensures names { OnOk result (KeepsNames bits e.now (all_of done.now (indices.InPart i.now ∷ rest.now)) all.old all.new) }
    ensures own { OnOk result (KeepsOwn name.now bits all.old all.new) }
{
    match case_of(alloc, e, done, i, k)? {
        None => Ok(()),
        Some(case) => {
            let one = spread(alloc, name, bits, &case.path, case.done.as_slice(), rest)?;
            put_case(alloc, i, &case.number, one, all)
        }
    }
}

/// The targets for each number from one to another one.
#[cycle(spread)]
fn cases_between(
    alloc: Global,
    name: &Text,
    bits: u32,
    e: &Expr,
    done: &[Given],
    i: &Index,
    rest: &[PathIndex],
    numbers: Numbers,
) -> Result<Writes, AllocError>
    requires narrow { (meaning e.now).widest ≤ 4194304 }
    requires shaped { IsShaped e.now (all_of done.now (indices.InPart i.now ∷ rest.now)) }
    requires done { AllSmall done.now }
    requires short { i.now.width ≤ 64 }
    requires rest { AllShort rest.now }
    requires low { unsigned_abs numbers.low ≤ 2 ^ 64 }
    requires high { unsigned_abs numbers.high ≤ 2 ^ 64 }
    ensures writes { IfOk result (SpreadsBetween bits e.now done.now i.now rest.now numbers) }
    ensures names { IfOk result (NamesEach bits e.now (all_of done.now (indices.InPart i.now ∷ rest.now))) }
    ensures own { IfOk result (AllOwn name.now bits) }
{
    let mut all = Writes::new(alloc);
    for k in numbers.low..numbers.high + 1 {
        add_case(alloc, name, bits, e, done, i, rest, k, &mut all)?;
    }
    Ok(all)
}

/// The targets for all numbers with which an index names anything.
#[cycle(spread)]
fn cases(
    alloc: Global,
    name: &Text,
    bits: u32,
    e: &Expr,
    done: &[Given],
    i: &Index,
    rest: &[PathIndex],
) -> Result<Writes, AllocError>
    requires narrow { (meaning e.now).widest ≤ 4194304 }
    requires shaped { IsShaped e.now (all_of done.now (indices.InPart i.now ∷ rest.now)) }
    requires done { AllSmall done.now }
    requires short { i.now.width ≤ 64 }
    requires rest { AllShort rest.now }
    ensures writes { IfOk result (Spreads bits e.now (all_of done.now (indices.InPart i.now ∷ rest.now))) }
    ensures names { IfOk result (NamesEach bits e.now (all_of done.now (indices.InPart i.now ∷ rest.now))) }
    ensures own { IfOk result (AllOwn name.now bits) }
    ensures plain { IfOk result (PlainOf name.now (all_of done.now (indices.InPart i.now ∷ rest.now))) }
{
    let numbers = numbers_at(e, done.len());
    cases_between(alloc, name, bits, e, done, i, rest, numbers)
}

/// Targets for a path with an index more that is done.
#[cycle(spread)]
fn plain(
    alloc: Global,
    name: &Text,
    bits: u32,
    e: &Expr,
    done: &[Given],
    given: &Given,
    rest: &[PathIndex],
) -> Result<Writes, AllocError>
    requires narrow { (meaning e.now).widest ≤ 4194304 }
    requires shaped { IsShaped e.now (all_of done.now (indices.Plain given.now ∷ rest.now)) }
    requires done { AllSmall done.now }
    requires small { IsSmall given.now }
    requires rest { AllShort rest.now }
    ensures writes { IfOk result (Spreads bits e.now (all_of done.now (indices.Plain given.now ∷ rest.now))) }
    ensures names { IfOk result (NamesEach bits e.now (all_of done.now (indices.Plain given.now ∷ rest.now))) }
    ensures own { IfOk result (AllOwn name.now bits) }
    ensures plain { IfOk result (PlainOf name.now (all_of done.now (indices.Plain given.now ∷ rest.now))) }
{
    let done = with_given(alloc, done, given)?;
    spread(alloc, name, bits, e, done.as_slice(), rest)
}

/// Targets for a path whose first indices are done: for each number that another one may have which selects from a part-select those
/// for the path with that number in its place, under the condition that the index has it.
#[cycle(spread)]
pub(crate) fn spread(
    alloc: Global,
    name: &Text,
    bits: u32,
    e: &Expr,
    done: &[Given],
    rest: &[PathIndex],
) -> Result<Writes, AllocError>
    requires narrow { (meaning e.now).widest ≤ 4194304 }
    requires shaped { IsShaped e.now (all_of done.now rest.now) }
    requires done { AllSmall done.now }
    requires rest { AllShort rest.now }
    ensures writes { IfOk result (Spreads bits e.now (all_of done.now rest.now)) }
    ensures names { IfOk result (NamesEach bits e.now (all_of done.now rest.now)) }
    ensures own { IfOk result (AllOwn name.now bits) }
    ensures plain { IfOk result (PlainOf name.now (all_of done.now rest.now)) }
{
    match rest {
        [] => flat(alloc, name, bits, e, done),
        [PathIndex::Plain(given), rest @ ..] => plain(alloc, name, bits, e, done, given, rest),
        [PathIndex::InPart(i), rest @ ..] => cases(alloc, name, bits, e, done, i, rest),
    }
}
