//! Targets for a select path on an element of a signal that is a memory in the text.

ghost use Rattle.std.specs.Prelude.{◌≤◌, IfOk, OnOk};
ghost use Rattle.sv_types.specs.Expressions.{meaning};
ghost use Rattle.sv_types.specs.Layouts.{width_of};
ghost use Rattle.eval_parts.specs.Limits.{FitsAlone};
ghost use Rattle.eval_forms.specs.Callees.{formals_in};
ghost use Rattle.eval_runs.specs.Functions.{AllCanRun};
ghost use Rattle.path_flatten.specs.Helping.{Grows};
ghost use Rattle.expr_lower.specs.Leaves.{leaves, Each, IsLowered};
ghost use Rattle.typed_paths.specs.Typed.{IsTyped};
ghost use Rattle.element_paths.specs.Elements.{GoesOn};
ghost use Rattle.memory_lower.specs.Lowered.{LowersInMemory};
ghost use Rattle.memory_lower.specs.Made.{CanBeLowered, WordTargets, ElementTargets};
ghost use Rattle.memory_lower.specs.Shapes.{HasWordShape};

use crate::words::{word_for, word_targets};
use element_paths::{Element, alone_path};
use memory_targets::Word;
use path_flatten::Helpers;
use std::alloc::{AllocError, Global};
use sv_types::{Expr, Function, SvType};
use target_lower::{Indices, Within, index_given, put_indices};
use target_walk::Targets;
use v_tree::NameMap;

/// Targets in a word for a path in it.
fn targets_in_word(
    alloc: Global,
    names: &NameMap,
    functions: &[Function],
    within: Within,
    signal: u32,
    of: &SvType,
    inner: &Expr,
    word: &Word,
    helpers: &mut Helpers,
) -> Result<Targets, AllocError>
    requires functions { AllCanRun functions.now }
    requires built { Each IsLowered (leaves inner.now) }
    requires fits { FitsAlone (meaning inner.now) (formals_in functions.now) }
    requires typed { IsTyped inner.now }
    requires of { width_of of.now ≤ 4194304 }
    ensures grows { OnOk result (Grows helpers.old helpers.new) }
    ensures made { IfOk result (WordTargets within names.now functions.now helpers.new signal of.now inner.now word.now) }
{
    let mut indices = Indices::new(alloc);
    put_indices(
        alloc,
        names,
        functions,
        within,
        inner,
        helpers,
        &mut indices,
    )?;
    word_targets(alloc, names, signal, of, inner, word, indices.as_slice())
}

/// Targets for a path on an element, in the word of the element's index.
fn element_targets(
    alloc: Global,
    names: &NameMap,
    functions: &[Function],
    within: Within,
    element: Element<'_>,
    inner: &Expr,
    helpers: &mut Helpers,
) -> Result<Targets, AllocError>
    requires functions { AllCanRun functions.now }
    requires can { CanBeLowered element.of.now element.index.now (formals_in functions.now) inner.now }
    ensures grows { OnOk result (Grows helpers.old helpers.new) }
    ensures made { IfOk result (ElementTargets within names.now functions.now helpers.new element.entry.signal element.entry.of.now element.entry.index.now inner.now) }
{
    let Element { signal, of, index } = element;
    let given = index_given(alloc, names, functions, within, index, helpers)?;
    let word = word_for(alloc, of, given)?;
    targets_in_word(
        alloc, names, functions, within, signal, of, inner, &word, helpers,
    )
}

/// Targets for a select path that goes on from an element of a signal, which is a memory in the text: all of their guards and indices
/// are valued before the first one is written, by calls of some helpers more. Each is the signal's name, if the map says one thing of
/// it, with the select of one word, and with one more at most, none where an element has one bit. Or want of memory.
pub fn lower_in_memory(
    alloc: Global,
    names: &NameMap,
    functions: &[Function],
    within: Within,
    element: Element<'_>,
    e: &Expr,
    helpers: &mut Helpers,
) -> Result<Targets, AllocError>
    requires functions { AllCanRun functions.now }
    requires built { Each IsLowered (leaves e.now) }
    requires fits { FitsAlone (meaning e.now) (formals_in functions.now) }
    requires typed { IsTyped e.now }
    requires goes { GoesOn element.signal element.of.now element.index.now e.now }
    ensures grows { OnOk result (Grows helpers.old helpers.new) }
    ensures lowers { IfOk result (LowersInMemory within names.now functions.now helpers.new element.entry.signal element.entry.of.now e.now) }
    ensures shape { IfOk result (HasWordShape names.now element.entry.signal element.entry.of.now) }
{
    let inner = alone_path(alloc, e)?;
    element_targets(alloc, names, functions, within, element, &inner, helpers)
}
