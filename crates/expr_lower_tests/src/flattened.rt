//! Select paths, flattened by indices that are lowered before.

ghost use Rattle.std.specs.Prelude.{◌≡◌, true};
ghost use Rattle.path_walk.specs.Indices.{AllShort, IsShort};

use crate::lowered::names;
use crate::texts::put_expr;
use eval_parts::{Step, own_sign, own_width, step_of};
use expr_fits::fits_alone;
use expr_lower::lower;
use lowered_forms::is_lowered;
use path_flatten::{Helpers, Index};
use path_steps::known_index;
use path_walk::{StepIndex, flatten};
use std::alloc::{AllocError, Global};
use sv_types::Expr;
use v_tree::{NameMap, VExpr};

/// An expression that is lowered alone, if it can be.
fn lowered_alone(
    alloc: Global,
    names: &NameMap,
    e: &Expr,
    helpers: &mut Helpers,
) -> Result<Option<VExpr>, AllocError> {
    if !is_lowered(e) || !fits_alone(e, &[]) {
        return Ok(None);
    }
    let made = lower(alloc, names, &[], e, own_width(e), own_sign(e), helpers)?;
    Ok(Some(made))
}

/// An index by its number where it is known, else lowered alone.
fn step_index(
    alloc: Global,
    names: &NameMap,
    i: &Expr,
    helpers: &mut Helpers,
) -> Result<Option<StepIndex>, AllocError> {
    if !fits_alone(i, &[]) {
        return Ok(None);
    }
    let (width, signed) = (own_width(i), own_sign(i));
    if width > 64 {
        return Ok(None);
    }
    if let Some(known) = known_index(alloc, &[], i)? {
        return Ok(Some(StepIndex::Known(known.number)));
    }
    match lowered_alone(alloc, names, i, helpers)? {
        None => Ok(None),
        Some(expr) => Ok(Some(StepIndex::Lowered(Index {
            expr,
            width,
            signed,
        }))),
    }
}

/// Puts an index behind others.
fn put_index(
    alloc: Global,
    names: &NameMap,
    i: &Expr,
    helpers: &mut Helpers,
    to: &mut Vec<StepIndex>,
) -> Result<(), AllocError> {
    if let Some(index) = step_index(alloc, names, i, helpers)? {
        to.push(index)?;
    }
    Ok(())
}

/// Puts the indices of a path, from what it stands on up.
fn put_indices(
    alloc: Global,
    names: &NameMap,
    e: &Expr,
    helpers: &mut Helpers,
    to: &mut Vec<StepIndex>,
) -> Result<(), AllocError> {
    match step_of(e) {
        None => Ok(()),
        Some(Step::Signal(_)) => Ok(()),
        Some(Step::Local(_)) => Ok(()),
        Some(Step::Member(from, _)) => put_indices(alloc, names, from, helpers, to),
        Some(Step::Part { from, .. }) => put_indices(alloc, names, from, helpers, to),
        Some(Step::Index(from, i)) => {
            put_indices(alloc, names, from, helpers, to)?;
            put_index(alloc, names, i, helpers, to)
        }
        Some(Step::Slide { from, base, .. }) => {
            put_indices(alloc, names, from, helpers, to)?;
            put_index(alloc, names, base, helpers, to)
        }
    }
}

/// What a path stands on, if it is no signal or local.
fn base_of(e: &Expr) -> Option<&Expr> {
    match step_of(e) {
        None => Some(e),
        Some(Step::Signal(_)) => None,
        Some(Step::Local(_)) => None,
        Some(Step::Member(from, _)) => base_of(from),
        Some(Step::Part { from, .. }) => base_of(from),
        Some(Step::Index(from, _)) => base_of(from),
        Some(Step::Slide { from, .. }) => base_of(from),
    }
}

/// Whether an index is one of at most 64 bits.
fn is_short(index: &StepIndex) -> bool
    ensures { result ≡ true → IsShort index.now }
{
    match index {
        StepIndex::Known(None) => true,
        StepIndex::Known(Some(k)) => k.unsigned_abs() <= 1 << 64,
        StepIndex::Lowered(index) => index.width <= 64,
    }
}

/// Whether each is.
fn are_short(indices: &[StepIndex]) -> bool
    ensures { result ≡ true → AllShort indices.now }
{
    for index in indices {
        if !is_short(index) {
            return false;
        }
    }
    true
}

/// The text of a path that is flattened.
pub fn flattened_text(alloc: Global, e: &Expr) -> Result<String, AllocError> {
    let mut text = String::new(alloc);
    if !fits_alone(e, &[]) {
        text.push_str("not fit")?;
        return Ok(text);
    }
    let names = names(alloc)?;
    let mut helpers = Helpers::new(alloc);
    let base = match base_of(e) {
        None => None,
        Some(base) => lowered_alone(alloc, &names, base, &mut helpers)?,
    };
    let mut indices = Vec::new(alloc);
    put_indices(alloc, &names, e, &mut helpers, &mut indices)?;
    if !are_short(indices.as_slice()) {
        text.push_str("not short")?;
        return Ok(text);
    }
    let made = flatten(
        alloc,
        &names,
        e,
        base.as_ref(),
        indices.as_slice(),
        &mut helpers,
    )?;
    put_expr(&made, &mut text)?;
    Ok(text)
}
