//! The indices of a select path: known, or lowered.

ghost use Rattle.std.specs.Prelude.{◌≡◌, ◌≤◌, IfOk, OnOk};
ghost use Rattle.sv_types.specs.Meanings.{wide};
ghost use Rattle.sv_types.specs.Expressions.{meaning};
ghost use Rattle.eval_parts.specs.Limits.{FitsAlone};
ghost use Rattle.eval_forms.specs.Callees.{formals_in};
ghost use Rattle.eval_runs.specs.Functions.{AllCanRun};
ghost use Rattle.path_flatten.specs.Helping.{Grows};
ghost use Rattle.expr_lower.specs.Leaves.{leaves, Each, IsLowered};
ghost use Rattle.expr_lower.specs.Paths.{Indexes};
ghost use Rattle.target_lower.specs.declared.within.Within.TheVariants.{Process, Routine};
ghost use Rattle.target_lower.specs.Made.{GivesNumber, GivenFor, path_index, PutsIndex, PutsIndices};

use crate::within::Within;
use case_targets::PathIndex;
use eval_parts::{Step, own_sign, own_width, step_of};
use expr_lower::lower;
use known_indices::IndexFail;
use path_flatten::{Helpers, Index};
use path_steps::{KnownIndex, known_index};
use std::alloc::{AllocError, Global};
use sv_source::Items;
use sv_types::{Expr, Function};
use target_walk::Given;
use typed_paths::ends_in_part;
use v_tree::NameMap;

/// Indices of a path, the last step's first.
pub type Indices = Items<PathIndex>;

/// The number of an index that is constant, if its value doesn't take too long. Or want of memory.
fn constant_number(
    alloc: Global,
    functions: &[Function],
    i: &Expr,
) -> Result<Option<KnownIndex>, AllocError>
    requires functions { AllCanRun functions.now }
    requires fits { FitsAlone (meaning i.now) (formals_in functions.now) }
    requires short { wide (meaning i.now) ≤ 64 }
    ensures { IfOk result (GivesNumber Process functions.now i.now) }
{
    match known_indices::known_index(alloc, functions, i) {
        Ok(known) => match known {
            None => Ok(None),
            Some(known) => Ok(Some(KnownIndex {
                number: known.number,
            })),
        },
        Err(fail) => match fail {
            IndexFail::Memory => Err(AllocError),
            IndexFail::TooLong { at: _at } => Ok(None),
        },
    }
}

/// The number of an index that is made of numbers and constants alone. Or want of memory.
fn free_number(
    alloc: Global,
    functions: &[Function],
    i: &Expr,
) -> Result<Option<KnownIndex>, AllocError>
    requires functions { AllCanRun functions.now }
    requires fits { FitsAlone (meaning i.now) (formals_in functions.now) }
    requires short { wide (meaning i.now) ≤ 64 }
    ensures { IfOk result (GivesNumber Routine functions.now i.now) }
{
    known_index(alloc, functions, i)
}

/// The number of an index, if it is known where its statement stands. Or want of memory.
fn number_given(
    alloc: Global,
    functions: &[Function],
    within: Within,
    i: &Expr,
) -> Result<Option<KnownIndex>, AllocError>
    requires functions { AllCanRun functions.now }
    requires fits { FitsAlone (meaning i.now) (formals_in functions.now) }
    requires short { wide (meaning i.now) ≤ 64 }
    ensures { IfOk result (GivesNumber within functions.now i.now) }
{
    match within {
        Within::Process => constant_number(alloc, functions, i),
        Within::Routine => free_number(alloc, functions, i),
    }
}

/// An index that is lowered alone, by calls of some helpers more. Or want of memory.
fn lowered_index(
    alloc: Global,
    names: &NameMap,
    functions: &[Function],
    i: &Expr,
    helpers: &mut Helpers,
) -> Result<Index, AllocError>
    requires functions { AllCanRun functions.now }
    requires built { Each IsLowered (leaves i.now) }
    requires fits { FitsAlone (meaning i.now) (formals_in functions.now) }
    requires short { wide (meaning i.now) ≤ 64 }
    ensures grows { OnOk result (Grows helpers.old helpers.new) }
    ensures index { IfOk result (Indexes names.now functions.now helpers.new i.now) }
    ensures short { IfOk result (λ x. x.width ≤ 64) }
{
    let (width, signed) = (own_width(i), own_sign(i));
    let expr = lower(alloc, names, functions, i, width, signed, helpers)?;
    Ok(Index {
        expr,
        width,
        signed,
    })
}

/// An index, by its number if that is known where its statement stands: in a process each constant one, calls among it, whose value
/// doesn't take too long; else lowered alone, by calls of some helpers more. Or want of memory.
pub fn index_given(
    alloc: Global,
    names: &NameMap,
    functions: &[Function],
    within: Within,
    i: &Expr,
    helpers: &mut Helpers,
) -> Result<Given, AllocError>
    requires functions { AllCanRun functions.now }
    requires built { Each IsLowered (leaves i.now) }
    requires fits { FitsAlone (meaning i.now) (formals_in functions.now) }
    requires short { wide (meaning i.now) ≤ 64 }
    ensures grows { OnOk result (Grows helpers.old helpers.new) }
    ensures made { IfOk result (GivenFor within names.now functions.now helpers.new i.now) }
{
    let known = number_given(alloc, functions, within, i)?;
    match known {
        Some(known) => Ok(Given::Known(known.number)),
        None => {
            let index = lowered_index(alloc, names, functions, i, helpers)?;
            Ok(Given::Lowered { index, by: 0 })
        }
    }
}

/// An index as one of a path: one that is lowered stands for itself where it selects from a part-select.
fn in_path(given: Given, in_part: bool) -> PathIndex
    ensures { result ≡ path_index in_part given }
{
    match given {
        Given::Known(number) => PathIndex::Plain(Given::Known(number)),
        Given::Lowered { index, by } => {
            if in_part {
                PathIndex::InPart(index)
            } else {
                PathIndex::Plain(Given::Lowered { index, by })
            }
        }
    }
}

/// One index more.
fn put_index(
    alloc: Global,
    names: &NameMap,
    functions: &[Function],
    within: Within,
    i: &Expr,
    in_part: bool,
    helpers: &mut Helpers,
    indices: &mut Indices,
) -> Result<(), AllocError>
    requires functions { AllCanRun functions.now }
    requires built { Each IsLowered (leaves i.now) }
    requires fits { FitsAlone (meaning i.now) (formals_in functions.now) }
    requires short { wide (meaning i.now) ≤ 64 }
    ensures grows { OnOk result (Grows helpers.old helpers.new) }
    ensures puts { OnOk result (PutsIndex within names.now functions.now helpers.new i.now in_part indices.old indices.new) }
{
    let given = index_given(alloc, names, functions, within, i, helpers)?;
    indices.push(in_path(given, in_part))
}

/// The indices of a path, the last step's first, behind those that are there. Or want of memory.
pub fn put_indices(
    alloc: Global,
    names: &NameMap,
    functions: &[Function],
    within: Within,
    e: &Expr,
    helpers: &mut Helpers,
    indices: &mut Indices,
) -> Result<(), AllocError>
    requires functions { AllCanRun functions.now }
    requires built { Each IsLowered (leaves e.now) }
    requires fits { FitsAlone (meaning e.now) (formals_in functions.now) }
    ensures grows { OnOk result (Grows helpers.old helpers.new) }
    ensures puts { OnOk result (PutsIndices within names.now functions.now helpers.new e.now indices.old indices.new) }
{
    match step_of(e) {
        None => Ok(()),
        Some(Step::Signal(_)) => Ok(()),
        Some(Step::Local(_)) => Ok(()),
        Some(Step::Member(from, _)) => put_indices(
            alloc, names, functions, within, from, helpers, indices,
        ),
        Some(Step::Part { from, .. }) => {
            put_indices(alloc, names, functions, within, from, helpers, indices)
        }
        Some(Step::Index(from, i)) => {
            let in_part = ends_in_part(from);
            put_index(
                alloc, names, functions, within, i, in_part, helpers, indices,
            )?;
            put_indices(alloc, names, functions, within, from, helpers, indices)
        }
        Some(Step::Slide { from, base, .. }) => {
            let in_part = ends_in_part(from);
            put_index(
                alloc, names, functions, within, base, in_part, helpers, indices,
            )?;
            put_indices(alloc, names, functions, within, from, helpers, indices)
        }
    }
}
