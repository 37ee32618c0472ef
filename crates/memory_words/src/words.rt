//! In which word the element with an index stands.

ghost use Rattle.std.specs.Prelude.{◌≡◌, ◌≤◌, ◌^◌, suc, false, unsigned_abs, IfOk, IfSome};
ghost use Rattle.sv_types.specs.Layouts.{layout, width_of, count_of};
ghost use Rattle.memory_words.specs.Words.{FindsWord, FindsWordBetween, FindsWordUpTo, NamesWord, AreUpTo, LiesAbove, NumbersWord, lowest, highest};

use eval_parts::{Bounds, bounds_of};
use path_flatten::{Index, Rank, falling_rank, guarded_rank, signed_index};
use std::alloc::{AllocError, Global};
use sv_types::SvType;

/// How many bits the numbers have by which words are found: there is room for each index of 64 bits, for each bound, and for how
/// far they lie apart.
pub(crate) const NUMBER_BITS: u32 = 66;

/// The smaller bound.
pub(crate) fn lowest(bounds: &Bounds) -> i64
    ensures { result ≡ lowest bounds.now }
{
    if bounds.right <= bounds.left {
        bounds.right
    } else {
        bounds.left
    }
}

/// The larger bound.
fn highest(bounds: &Bounds) -> i64
    ensures { result ≡ highest bounds.now }
{
    if bounds.right <= bounds.left {
        bounds.left
    } else {
        bounds.right
    }
}

/// How far the bounds lie apart, which is the number of the last word.
fn last_word(bounds: &Bounds) -> u32
    requires few { count_of bounds.now.left bounds.now.right ≤ 4194304 }
    ensures last { count_of bounds.now.left bounds.now.right ≡ suc result }
    ensures few { result ≤ 4194304 }
{
    if bounds.right <= bounds.left {
        (bounds.left - bounds.right) as u32
    } else {
        (bounds.right - bounds.left) as u32
    }
}

/// The word of an index by numbers, which is how far it lies above the smaller bound, where it isn't behind the larger one.
fn word_between(alloc: Global, index: Index, bounds: &Bounds) -> Result<Rank, AllocError>
    requires short { index.width ≤ 64 }
    ensures word { IfOk result (FindsWordBetween index bounds.now) }
    ensures names { IfOk result (NamesWord index) }
{
    let number = signed_index(alloc, index)?;
    let made = falling_rank(
        alloc,
        &number.expr,
        NUMBER_BITS,
        highest(bounds),
        lowest(bounds),
    )?;
    Ok(made)
}

/// 2 to a power of at most 64.
#[tactic(auto, using(crate::proofs::Powers::powers))]
fn power_of_two(n: u32) -> u128
    requires { n ≤ 64 }
    ensures value { result ≡ 2 ^ n }
    ensures small { result ≤ 2 ^ 64 }
{
    let mut power: u128 = 1;
    for _i in 0..n {
        power *= 2;
    }
    power
}

/// Whether each number of so many bits is the number of a word, up to the last one.
fn all_are_words(width: u32, last: u32) -> bool
    requires { width ≤ 64 }
    ensures { AreUpTo result width last }
{
    power_of_two(width) <= u128::from(last) + 1
}

/// The word of an unsigned index of which some numbers are those of no word.
fn guarded_word(alloc: Global, index: Index, last: u32) -> Result<Rank, AllocError>
    requires unsigned { index.signed ≡ false }
    requires many { AreUpTo false index.width last }
    ensures word { IfOk result (FindsWordUpTo index last) }
    ensures names { IfOk result (NamesWord index) }
{
    let made = guarded_rank(alloc, &index.expr, index.width, last)?;
    Ok(made)
}

/// The word of an unsigned index where the words have the numbers of the indices, from 0 to a last one.
fn word_up_to(alloc: Global, index: Index, last: u32) -> Result<Rank, AllocError>
    requires short { index.width ≤ 64 }
    requires unsigned { index.signed ≡ false }
    ensures word { IfOk result (FindsWordUpTo index last) }
    ensures names { IfOk result (NamesWord index) }
{
    if all_are_words(index.width, last) {
        return Ok(Rank {
            guard: None,
            rank: index.expr,
        });
    }
    let made = guarded_word(alloc, index, last)?;
    Ok(made)
}

/// The word of the element with an index that is written, and a guard where the index' bits alone don't say that there is one: an
/// unsigned index of an array whose smaller bound is 0 is the word as it is, if it has no bits for numbers behind the last word. Or want
/// of memory.
pub fn word_of(alloc: Global, index: Index, of: &SvType) -> Result<Rank, AllocError>
    requires narrow { width_of of.now ≤ 4194304 }
    requires some { 1 ≤ width_of of.now }
    requires short { index.width ≤ 64 }
    ensures word { IfOk result (FindsWord index of.now) }
    ensures names { IfOk result (NamesWord index) }
{
    let bounds = bounds_of(of);
    if !index.signed && lowest(&bounds) == 0 {
        let made = word_up_to(alloc, index, last_word(&bounds))?;
        return Ok(made);
    }
    let made = word_between(alloc, index, &bounds)?;
    Ok(made)
}

/// How far a number lies above a lowest one, if it does and no farther than a last one.
fn distance(number: i128, low: i64, last: u32) -> Option<u32>
    requires { unsigned_abs number ≤ 2 ^ 65 }
    ensures { LiesAbove number low last result }
{
    let above = number - low as i128;
    if above < 0 {
        return None;
    }
    if above > last as i128 {
        return None;
    }
    Some(above as u32)
}

/// The number of the word of the element with a known index, and a number behind those of all words where no element has the index,
/// or it has x or z.
pub fn known_word(of: &SvType, index: Option<i128>) -> u32
    requires narrow { width_of of.now ≤ 4194304 }
    requires some { 1 ≤ width_of of.now }
    requires small { IfSome index (λ k. unsigned_abs k ≤ 2 ^ 65) }
    ensures { NumbersWord (layout of.now) index result }
{
    let bounds = bounds_of(of);
    let last = last_word(&bounds);
    match index {
        None => last + 1,
        Some(number) => match distance(number, lowest(&bounds), last) {
            None => last + 1,
            Some(word) => word,
        },
    }
}
