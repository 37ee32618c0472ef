//! Targets for select paths of an elaborated design.

ghost use Rattle.std.specs.Prelude.{◌≤◌, IfOk, OnOk};
ghost use Rattle.sv_types.specs.Expressions.{meaning};
ghost use Rattle.eval_parts.specs.Limits.{FitsAlone};
ghost use Rattle.eval_forms.specs.Callees.{formals_in};
ghost use Rattle.eval_runs.specs.Functions.{AllCanRun};
ghost use Rattle.path_flatten.specs.Helping.{Grows};
ghost use Rattle.expr_lower.specs.Leaves.{leaves, Each, IsLowered};
ghost use Rattle.typed_paths.specs.Typed.{IsTyped};
ghost use Rattle.case_targets.specs.Spreading.{AllShort, IsShaped};
ghost use Rattle.target_lower.specs.Roots.{IsInImage};
ghost use Rattle.target_lower.specs.Targets.{HasShape, LowersTarget};

use crate::indices::{Indices, put_indices};
use crate::roots::{name_of, root_of};
use crate::within::Within;
use case_targets::{PathIndex, spread_target};
use path_flatten::Helpers;
use std::alloc::{AllocError, Global};
use sv_types::{Expr, Function};
use target_walk::Targets;
use v_tree::NameMap;

/// Targets for a path with these indices, in the image of what it stands on.
fn targets(
    alloc: Global,
    names: &NameMap,
    e: &Expr,
    indices: &[PathIndex],
) -> Result<Targets, AllocError>
    requires narrow { (meaning e.now).widest ≤ 4194304 }
    requires shaped { IsShaped e.now indices.now }
    requires short { AllShort indices.now }
    ensures { IfOk result (IsInImage names.now e.now indices.now) }
{
    let root = root_of(e);
    let name = name_of(alloc, names, root.held)?;
    spread_target(alloc, &name, root.bits, e, indices)
}

/// Targets for a select path that is written, all of whose guards and indices are valued before the first one is written, by calls
/// of some helpers more. Each is the name of what the path stands on, if the map says one thing of it, with a select at most, and
/// none where that has one bit. In a process, where all indices are constant and their values don't take too long, there are no
/// guards and each select is decimal, as a continuous assignment wants it (IEEE 1364-2005 clause 6.1.2). Or want of memory.
pub fn lower_target(
    alloc: Global,
    names: &NameMap,
    functions: &[Function],
    within: Within,
    e: &Expr,
    helpers: &mut Helpers,
) -> Result<Targets, AllocError>
    requires functions { AllCanRun functions.now }
    requires built { Each IsLowered (leaves e.now) }
    requires fits { FitsAlone (meaning e.now) (formals_in functions.now) }
    requires typed { IsTyped e.now }
    ensures grows { OnOk result (Grows helpers.old helpers.new) }
    ensures lowers { IfOk result (LowersTarget within names.now functions.now helpers.new e.now) }
    ensures shape { IfOk result (HasShape within names.now functions.now helpers.new e.now) }
{
    let mut indices = Indices::new(alloc);
    put_indices(alloc, names, functions, within, e, helpers, &mut indices)?;
    targets(alloc, names, e, indices.as_slice())
}
