//! Targets in a word.

ghost use Rattle.std.specs.Prelude.{◌≡◌, [], ◌∷◌, map, IfOk};
ghost use Rattle.lowering_laws.specs.Terms.{and_guard};
ghost use Rattle.v_meaning.specs.Values.{sel_meaning};
ghost use Rattle.path_flatten.specs.Guards.{guard_meaning};
ghost use Rattle.memory_targets.specs.Words.{word_sel, word_guard};
ghost use Rattle.memory_targets.specs.Names.{NamedInWord};
ghost use Rattle.memory_targets.specs.Owning.{OwnInWord};
ghost use Rattle.memory_targets.specs.Pieces.{IsBehindWord, InWord, TargetInWord, AllInWord};

use crate::words::{Word, guard_copy, guard_of, joined_guard, word_select};
use pairs::both;
use path_flatten::copy_expr;
use std::alloc::{AllocError, Global};
use sv_source::{Boxed, Items, Text};
use target_flatten::{Write, Writes};
use v_tree::{VExpr, VLval, VSel, VSels};

/// A copy of a select.
fn select_copy(alloc: Global, sel: &VSel) -> Result<VSel, AllocError>
    ensures { IfOk result (λ c. c ≡ sel.now) }
{
    match sel {
        VSel::Decimal { base, extent } => Ok(VSel::Decimal {
            base: *base,
            extent: *extent,
        }),
        VSel::Expr { base, extent } => {
            let copy = copy_expr(alloc, base.get())?;
            let base = Boxed::new(alloc, copy)?;
            Ok(VSel::Expr {
                base,
                extent: *extent,
            })
        }
    }
}

/// Copies of selects.
fn select_copies(alloc: Global, sels: &[VSel]) -> Result<VSels, AllocError>
    ensures { IfOk result (λ c. c ≡ sels.now) }
{
    let mut made: VSels = Items::new(alloc);
    for sel in sels {
        made.push(select_copy(alloc, sel)?)?;
    }
    Ok(made)
}

/// One select.
fn one_select(alloc: Global, first: VSel) -> Result<VSels, AllocError>
    ensures { IfOk result (λ made. made ≡ first ∷ []) }
{
    let mut made: VSels = Items::new(alloc);
    made.push(first)?;
    Ok(made)
}

/// Selects behind that of a word.
#[tactic(auto, using(crate::proofs::Naming::behind))]
fn behind_word(alloc: Global, word: &Word, sels: &[VSel]) -> Result<VSels, AllocError>
    ensures { IfOk result (IsBehindWord word.now sels.now) }
{
    let first = word_select(alloc, word)?;
    let first = one_select(alloc, first);
    let (mut made, rest) = both(first, select_copies(alloc, sels))?;
    made.append(rest)?;
    Ok(made)
}

/// A target in the word alone as one in the word.
fn target_in(alloc: Global, word: &Word, to: &VLval) -> Result<VLval, AllocError>
    ensures { IfOk result (TargetInWord word.now to.now) }
{
    match to {
        VLval::Name { name, sels } => {
            let sels = behind_word(alloc, word, sels.as_slice());
            let (name, sels) = both(name.copy(alloc), sels)?;
            Ok(VLval::Name { name, sels })
        }
        VLval::Concat(_) => Ok(VLval::Name {
            name: Text::new(alloc),
            sels: Items::new(alloc),
        }),
    }
}

/// The guard of a target in a word.
fn guard_in(alloc: Global, word: &Word, guard: &Option<VExpr>) -> Result<Option<VExpr>, AllocError>
    ensures { IfOk result (λ g. guard_meaning g ≡ and_guard (word_guard word.now) (guard_meaning guard.now)) }
{
    let outer = guard_of(alloc, word);
    let (outer, inner) = both(outer, guard_copy(alloc, guard))?;
    joined_guard(alloc, outer, inner)
}

/// A target for some bits of a value in the word.
fn write_in(alloc: Global, word: &Word, write: &Write) -> Result<Write, AllocError>
    ensures { IfOk result (InWord word.now write.now) }
{
    let guard = guard_in(alloc, word, &write.guard);
    let (guard, to) = both(guard, target_in(alloc, word, &write.to))?;
    Ok(Write {
        guard,
        to,
        low: write.low,
        width: write.width,
    })
}

/// Targets for some bits of a value in the word, one by one.
fn each_in_word(alloc: Global, word: &Word, writes: &[Write]) -> Result<Writes, AllocError>
    ensures { IfOk result (AllInWord word.now writes.now) }
{
    let mut made: Writes = Items::new(alloc);
    for write in writes {
        made.push(write_in(alloc, word, write)?)?;
    }
    Ok(made)
}

/// Targets of a path in a word alone, as targets in the word of a memory of the same name: behind its select and under its guard.
/// Those of a name with at most one select have at most one behind the word's, and none where a word has one bit; they name what those
/// in the word alone do, and what the word does. Or want of memory.
#[tactic(auto, using(crate::proofs::Owning::owning))]
pub fn in_words(alloc: Global, word: &Word, writes: &[Write]) -> Result<Writes, AllocError>
    ensures all { IfOk result (AllInWord word.now writes.now) }
    ensures own { IfOk result (OwnInWord word.now writes.now) }
    ensures names { IfOk result (NamedInWord word.now writes.now) }
{
    each_in_word(alloc, word, writes)
}
