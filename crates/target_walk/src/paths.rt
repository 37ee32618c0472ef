//! Targets for select paths (IEEE 1800-2017 clauses 10.4 and 11.5.1).

ghost use Rattle.std.specs.Prelude.{◌≤◌, false, IfOk};
ghost use Rattle.sv_types.specs.Expressions.{meaning};
ghost use Rattle.target_flatten.specs.Owning.{AllOwn};
ghost use Rattle.target_walk.specs.Giving.{AllSmall};
ghost use Rattle.target_walk.specs.Walking.{WritesAs, WritesAll, TellsPart};
ghost use Rattle.target_walk.specs.Naming.{FlattensIn, FlattensTo};
ghost use Rattle.target_walk.specs.Changing.{ChangesAs};
ghost use Rattle.target_walk.specs.Owning.{BareOf, PlainOf};

use crate::cells::cells;
use crate::given::Given;
use crate::never::{Targets, with_names};
use crate::standing::spot_at;
use eval_parts::{Step, step_of};
use std::alloc::{AllocError, Global};
use sv_types::{Expr, width};
use target_flatten::{Image, Writes, between_writes, whole_writes};

/// Whether the last step of a path is a part-select.
fn ends_in_part(e: &Expr) -> bool
    ensures { TellsPart result e.now }
{
    match step_of(e) {
        None => false,
        Some(Step::Signal(_)) => false,
        Some(Step::Local(_)) => false,
        Some(Step::Member(_, _)) => false,
        Some(Step::Index(_, _)) => false,
        Some(Step::Part { .. }) => true,
        Some(Step::Slide { .. }) => true,
    }
}

/// What is written of a path that is no part-select.
fn whole_path(
    alloc: Global,
    image: &Image,
    e: &Expr,
    indices: &[Given],
) -> Result<Writes, AllocError>
    requires narrow { (meaning e.now).widest ≤ 4194304 }
    requires room { image.now.room ≤ 128 }
    requires small { AllSmall indices.now }
    ensures writes { IfOk result (WritesAs image.now e.now indices.now false) }
    ensures own { IfOk result (AllOwn image.now.name image.now.bits) }
    ensures plain { IfOk result (PlainOf image.now indices.now) }
{
    let spot = spot_at(alloc, e, indices, None, image.room)?;
    whole_writes(alloc, image, spot, width(&e.of))
}

/// What is written of a path.
fn path_writes(
    alloc: Global,
    image: &Image,
    e: &Expr,
    indices: &[Given],
) -> Result<Writes, AllocError>
    requires narrow { (meaning e.now).widest ≤ 4194304 }
    requires room { image.now.room ≤ 128 }
    requires small { AllSmall indices.now }
    ensures writes { IfOk result (WritesAll image.now e.now indices.now) }
    ensures own { IfOk result (AllOwn image.now.name image.now.bits) }
    ensures plain { IfOk result (PlainOf image.now indices.now) }
{
    if let Some(Step::Part { from, left, right }) = step_of(e) {
        if !ends_in_part(from) {
            let spot = spot_at(alloc, from, indices, None, image.room)?;
            return between_writes(alloc, image, spot, &from.of, left, right);
        }
    }
    if ends_in_part(e) {
        cells(alloc, image, e, indices)
    } else {
        whole_path(alloc, image, e, indices)
    }
}

/// Targets for a select path, all of whose guards and indices are valued before the first one is written. The indices are those
/// of the path's `[i]`, `[i +: n]` and `[i -: n]`, the last step's first. Where nothing is written, an expression names what lowered
/// indices do. Or want of memory.
pub fn flatten_target(
    alloc: Global,
    image: &Image,
    e: &Expr,
    indices: &[Given],
) -> Result<Targets, AllocError>
    requires narrow { (meaning e.now).widest ≤ 4194304 }
    requires room { image.now.room ≤ 128 }
    requires small { AllSmall indices.now }
    ensures writes { IfOk result (FlattensTo image.now e.now indices.now) }
    ensures inside { IfOk result (FlattensIn image.now e.now indices.now) }
    ensures changes { IfOk result (λ r. ChangesAs image.now e.now indices.now r.writes) }
    ensures own { IfOk result (λ r. AllOwn image.now.name image.now.bits r.writes) }
    ensures plain { IfOk result (BareOf image.now indices.now) }
{
    with_names(alloc, indices, path_writes(alloc, image, e, indices))
}
