//! What reads an element that stands in a word.

ghost use Rattle.std.specs.Prelude.{◌≡◌, ◌≤◌, ◌^◌, [], ◌∷◌, unsigned_abs, IfOk, IfSome};
ghost use Rattle.sv_types.specs.Layouts.{width_of};
ghost use Rattle.v_meaning.specs.Values as means;
ghost use Rattle.v_meaning.specs.Values.{meaning, sel_meaning, decimal_base, expression_base};
ghost use Rattle.path_flatten.specs.Stepping.{IsSound};
ghost use Rattle.memory_words.specs.Readings.{ReadsWord, ReadsKnownWord, NamesRead, NamesMemory};

use crate::words::known_word;
use eval_parts::{bounds_of, entire};
use pairs::both;
use path_flatten::{Reading, Root};
use std::alloc::{AllocError, Global};
use sv_source::{Items, Text};
use sv_types::SvType;
use v_build::{bit_select, decimal_bit, name};
use v_tree::{VExpr, VSel, VSels};

/// A memory with the select of a word.
fn word_selected(alloc: Global, memory: Text, word: VSel) -> Result<VExpr, AllocError>
    ensures { IfOk result (λ m. meaning m ≡ means.reference memory (sel_meaning word ∷ [])) }
{
    let mut sels: VSels = Items::from_vec(Vec::new(alloc));
    sels.push(word)?;
    Ok(name(memory, sels))
}

/// A memory with the number of a word.
fn word_named(alloc: Global, memory: Text, word: VExpr) -> Result<VExpr, AllocError>
    ensures { IfOk result (λ m. meaning m ≡ means.reference memory (expression_base (meaning word) None ∷ [])) }
{
    let (memory, sel) = both(Ok(memory), bit_select(alloc, word))?;
    let made = word_selected(alloc, memory, sel)?;
    Ok(made)
}

/// A memory with a decimal number of a word.
fn word_numbered(alloc: Global, memory: Text, word: u32) -> Result<VExpr, AllocError>
    ensures { IfOk result (λ m. meaning m ≡ means.reference memory (decimal_base word None ∷ [])) }
{
    let made = word_selected(alloc, memory, decimal_bit(word))?;
    Ok(made)
}

/// What reads the element of an array, of this type, that stands in the word with this number of a memory with this name, and x where
/// there is no such word. It names the memory and what the number does. Or want of memory.
pub fn word_reading(
    alloc: Global,
    memory: Text,
    of: &SvType,
    word: VExpr,
) -> Result<Reading, AllocError>
    requires narrow { width_of of.now ≤ 4194304 }
    ensures sound { IfOk result IsSound }
    ensures reads { IfOk result (ReadsWord memory of.now word) }
    ensures names { IfOk result (NamesRead memory word) }
{
    let n = bounds_of(of).element;
    let value = word_named(alloc, memory, word)?;
    Ok(Reading {
        root: Root::Value(value),
        width: n,
        window: entire(n),
    })
}

/// What reads the element with a known index of an array, of this type, whose elements stand in a memory with this name: a word by its
/// decimal number. It names the memory, also where no element has the index and all bits are x. Or want of memory.
pub fn known_reading(
    alloc: Global,
    memory: Text,
    of: &SvType,
    index: Option<i128>,
) -> Result<Reading, AllocError>
    requires narrow { width_of of.now ≤ 4194304 }
    requires some { 1 ≤ width_of of.now }
    requires small { IfSome index (λ k. unsigned_abs k ≤ 2 ^ 65) }
    ensures sound { IfOk result IsSound }
    ensures reads { IfOk result (ReadsKnownWord memory of.now index) }
    ensures names { IfOk result (NamesMemory memory) }
{
    let n = bounds_of(of).element;
    let value = word_numbered(alloc, memory, known_word(of, index))?;
    Ok(Reading {
        root: Root::Value(value),
        width: n,
        window: entire(n),
    })
}
