//! Elements of signals that stand in the words of memories of the text (IEEE 1364-2005 clause 4.9).

ghost use Rattle.std.specs.Prelude.{◌≡◌, ◌≤◌, ◌^◌, unsigned_abs, IfOk, IfSome};
ghost use Rattle.sv_types.specs.Layouts.{width_of};
ghost use Rattle.path_flatten.specs.Stepping.{IsSound};
ghost use Rattle.memory_words.specs.Readings.{ReadsKnownWord, NamesMemory};
ghost use Rattle.name_maps.specs.Named.{signal_name, OneSignal};
ghost use Rattle.expr_lower.specs.Elements.{StandsInWords, ReadsWordBy, NamesWordBy};

use eval_parts::{Step, step_of};
use memory_words::{known_reading, word_number, word_reading};
use name_maps::{is_memory, signal_text};
use path_flatten::{Index, Reading};
use std::alloc::{AllocError, Global};
use sv_types::{Expr, SvType};
use v_tree::NameMap;

/// The signal that an expression is, if it is a whole one that is a memory in the text.
pub fn memory_of(names: &NameMap, e: &Expr) -> Option<u32>
    ensures { StandsInWords names.now e.now result }
{
    match step_of(e) {
        None => None,
        Some(Step::Signal(n)) => {
            if is_memory(names.signals.as_slice(), n) {
                Some(n)
            } else {
                None
            }
        }
        Some(Step::Local(_)) => None,
        Some(Step::Member(_, _)) => None,
        Some(Step::Index(_, _)) => None,
        Some(Step::Part { .. }) => None,
        Some(Step::Slide { .. }) => None,
    }
}

/// What reads the element with a lowered index of a signal of a type, which is a memory.
pub fn indexed_word(
    alloc: Global,
    names: &NameMap,
    n: u32,
    of: &SvType,
    at: Index,
) -> Result<Reading, AllocError>
    requires narrow { width_of of.now ≤ 4194304 }
    requires some { 1 ≤ width_of of.now }
    requires short { at.width ≤ 64 }
    ensures sound { IfOk result IsSound }
    ensures reads { IfOk result (λ r. OneSignal names.now.signals n → ReadsWordBy (signal_name names.now.signals n) of.now at r) }
    ensures names { IfOk result (λ r. OneSignal names.now.signals n → NamesWordBy (signal_name names.now.signals n) at r) }
{
    let memory = signal_text(alloc, names.signals.as_slice(), n);
    let (memory, word) = pairs::both(memory, word_number(alloc, at, of))?;
    let made = word_reading(alloc, memory, of, word)?;
    Ok(made)
}

/// What reads the element with a known index of a signal of a type, which is a memory.
pub fn numbered_word(
    alloc: Global,
    names: &NameMap,
    n: u32,
    of: &SvType,
    index: Option<i128>,
) -> Result<Reading, AllocError>
    requires narrow { width_of of.now ≤ 4194304 }
    requires some { 1 ≤ width_of of.now }
    requires small { IfSome index (λ k. unsigned_abs k ≤ 2 ^ 65) }
    ensures sound { IfOk result IsSound }
    ensures reads { IfOk result (λ r. OneSignal names.now.signals n → ReadsKnownWord (signal_name names.now.signals n) of.now index r) }
    ensures names { IfOk result (λ r. OneSignal names.now.signals n → NamesMemory (signal_name names.now.signals n) r) }
{
    let memory = signal_text(alloc, names.signals.as_slice(), n)?;
    let made = known_reading(alloc, memory, of, index)?;
    Ok(made)
}
