//! Targets for select paths on vectors and memories of the text.

ghost use Rattle.std.specs.Prelude.{IfOk, OnOk};
ghost use Rattle.sv_types.specs.Expressions.{meaning};
ghost use Rattle.eval_parts.specs.Limits.{FitsAlone};
ghost use Rattle.eval_forms.specs.Callees.{formals_in};
ghost use Rattle.eval_runs.specs.Functions.{AllCanRun};
ghost use Rattle.path_flatten.specs.Helping.{Grows};
ghost use Rattle.expr_lower.specs.Leaves.{leaves, Each, IsLowered};
ghost use Rattle.typed_paths.specs.Typed.{IsTyped};
ghost use Rattle.memory_lower.specs.Shapes.{HasWrittenShape};
ghost use Rattle.memory_lower.specs.Written.{FindsInMemory, LowersWritten};

use crate::targets::lower_in_memory;
use element_paths::{Element, element_under};
use name_maps::is_memory;
use path_flatten::Helpers;
use std::alloc::{AllocError, Global};
use sv_types::{Expr, Function};
use target_lower::{Within, lower_target};
use target_walk::Targets;
use v_tree::NameMap;

/// The element of a signal from which a path goes on, if the signal is a memory in the text.
fn element_in_memory<'a>(names: &NameMap, e: &'a Expr) -> Option<Element<'a>>
    requires typed { IsTyped e.now }
    ensures { FindsInMemory names.now e.now result }
{
    match element_under(e) {
        None => None,
        Some(element) => {
            if is_memory(names.signals.as_slice(), element.signal) {
                Some(element)
            } else {
                None
            }
        }
    }
}

/// Targets for a select path that is written, in the words of a memory where it goes on from an element of a signal that is one in
/// the text, else in a vector. All of their guards and indices are valued before the first one is written, by calls of some helpers
/// more. Or want of memory.
pub fn lower_written(
    alloc: Global,
    names: &NameMap,
    functions: &[Function],
    within: Within,
    e: &Expr,
    helpers: &mut Helpers,
) -> Result<Targets, AllocError>
    requires functions { AllCanRun functions.now }
    requires built { Each IsLowered (leaves e.now) }
    requires fits { FitsAlone (meaning e.now) (formals_in functions.now) }
    requires typed { IsTyped e.now }
    ensures grows { OnOk result (Grows helpers.old helpers.new) }
    ensures lowers { IfOk result (LowersWritten within names.now functions.now helpers.new e.now) }
    ensures shape { IfOk result (HasWrittenShape within names.now functions.now helpers.new e.now) }
{
    match element_in_memory(names, e) {
        None => lower_target(alloc, names, functions, within, e, helpers),
        Some(element) => lower_in_memory(alloc, names, functions, within, element, e, helpers),
    }
}
