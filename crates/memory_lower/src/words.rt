//! Targets for a path in a word of a memory.

ghost use Rattle.std.specs.Prelude.{◌≤◌, IfOk};
ghost use Rattle.sv_types.specs.Expressions.{meaning};
ghost use Rattle.sv_types.specs.Layouts.{width_of};
ghost use Rattle.target_walk.specs.Giving.{IsSmall};
ghost use Rattle.case_targets.specs.Spreading.{AllShort, IsShaped};
ghost use Rattle.memory_lower.specs.Made.{WordOf, IsAloneFor, IsPutInWord, IsInWordFor};

use crate::apart::with_word;
use case_targets::{PathIndex, spread_target};
use eval_parts::bounds_of;
use memory_targets::{Word, in_words};
use memory_words::{known_word, word_of};
use name_maps::signal_text;
use std::alloc::{AllocError, Global};
use sv_types::{Expr, SvType};
use target_walk::{Given, Targets};
use v_tree::NameMap;

/// The word of an index of what has a type.
pub(crate) fn word_for(alloc: Global, of: &SvType, given: Given) -> Result<Word, AllocError>
    requires narrow { width_of of.now ≤ 4194304 }
    requires some { 1 ≤ width_of of.now }
    requires small { IsSmall given }
    ensures { IfOk result (WordOf of.now given) }
{
    match given {
        Given::Known(number) => Ok(Word::Known(known_word(of, number))),
        Given::Lowered { index, .. } => {
            let rank = word_of(alloc, index, of)?;
            Ok(Word::Lowered(rank))
        }
    }
}

/// Targets for a path in an element alone, in a vector of the element's bits that has the signal's name.
fn targets_alone(
    alloc: Global,
    names: &NameMap,
    signal: u32,
    of: &SvType,
    inner: &Expr,
    indices: &[PathIndex],
) -> Result<Targets, AllocError>
    requires narrow { (meaning inner.now).widest ≤ 4194304 }
    requires of { width_of of.now ≤ 4194304 }
    requires shaped { IsShaped inner.now indices.now }
    requires short { AllShort indices.now }
    ensures { IfOk result (IsAloneFor names.now signal of.now inner.now indices.now) }
{
    let name = signal_text(alloc, names.signals.as_slice(), signal)?;
    spread_target(alloc, &name, bounds_of(of).element, inner, indices)
}

/// Targets in a word, of those in the element alone.
fn put_in_word(alloc: Global, word: &Word, alone: Targets) -> Result<Targets, AllocError>
    ensures { IfOk result (IsPutInWord word.now alone) }
{
    let Targets { writes, named } = alone;
    let made = in_words(alloc, word, writes.as_slice())?;
    if writes.is_empty() {
        let (writes, named) = pairs::both(Ok(made), with_word(alloc, word, named))?;
        return Ok(Targets { writes, named });
    }
    Ok(Targets {
        writes: made,
        named,
    })
}

/// Targets in a word for a path in it with these indices.
pub(crate) fn word_targets(
    alloc: Global,
    names: &NameMap,
    signal: u32,
    of: &SvType,
    inner: &Expr,
    word: &Word,
    indices: &[PathIndex],
) -> Result<Targets, AllocError>
    requires narrow { (meaning inner.now).widest ≤ 4194304 }
    requires of { width_of of.now ≤ 4194304 }
    requires shaped { IsShaped inner.now indices.now }
    requires short { AllShort indices.now }
    ensures { IfOk result (IsInWordFor names.now signal of.now inner.now word.now indices.now) }
{
    let alone = targets_alone(alloc, names, signal, of, inner, indices)?;
    put_in_word(alloc, word, alone)
}
