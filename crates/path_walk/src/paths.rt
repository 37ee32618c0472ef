//! Whole select paths, from their last step down to what they stand on.

ghost use Rattle.std.specs.Prelude.{◌≡◌, ◌≤◌, option_copied, IfOk, OnOk};
ghost use Rattle.sv_types.specs.Expressions.{meaning};
ghost use Rattle.v_meaning.specs.Values as means;
ghost use Rattle.path_flatten.specs.Helping.{Grows};
ghost use Rattle.path_flatten.specs.Stepping.{IsSound};
ghost use Rattle.path_walk.specs.Bases.{value_of};
ghost use Rattle.path_walk.specs.Indices.{AllShort};
ghost use Rattle.path_walk.specs.Flattening.{Finds, FindsElement, FindsSlide, Flattens, StandsForPath};

use crate::bases::{based, memory_at};
use crate::indices::StepIndex;
use crate::steps;
use eval_parts::{Step, own_width, step_of};
use name_maps::{local_text, signal_text};
use path_flatten::{Helpers, PartSelect, Reading, between_step, member_step, whole_name};
use path_reads::read;
use std::alloc::{AllocError, Global};
use sv_source::Text;
use sv_types::Expr;
use v_tree::{NameMap, VExpr};

/// What reads the bits of a select path, with the indices of its steps from what it stands on up.
#[cycle(follow)]
fn follow(
    alloc: Global,
    names: &NameMap,
    e: &Expr,
    base: Option<&VExpr>,
    indices: &[StepIndex],
    helpers: &mut Helpers,
) -> Result<Reading, AllocError>
    requires typed { (meaning e.now).misfits ≡ 0 }
    requires narrow { (meaning e.now).widest ≤ 4194304 }
    requires short { AllShort indices.now }
    ensures grows { OnOk result (Grows helpers.old helpers.new) }
    ensures sound { IfOk result IsSound }
    ensures finds { IfOk result (Finds names.now (value_of (option_copied base.entry)) e.now indices.now helpers.new) }
{
    match step_of(e) {
        None => {
            let whole = based(alloc, base, own_width(e))?;
            Ok(whole)
        }
        Some(Step::Signal(n)) => {
            let name = signal_text(alloc, names.signals.as_slice(), n)?;
            Ok(whole_name(name, own_width(e)))
        }
        Some(Step::Local(n)) => {
            let name = local_text(alloc, names.locals.as_slice(), n)?;
            Ok(whole_name(name, own_width(e)))
        }
        Some(Step::Member(from, k)) => {
            let found = follow(alloc, names, from, base, indices, helpers)?;
            Ok(member_step(found, &from.of, k))
        }
        Some(Step::Part { from, left, right }) => {
            let found = follow(alloc, names, from, base, indices, helpers)?;
            Ok(between_step(found, &from.of, left, right))
        }
        Some(Step::Index(from, _)) => {
            let found = element(alloc, names, from, base, indices, helpers)?;
            Ok(found)
        }
        Some(
            Step::Slide {
                from,
                base: _index,
                width,
                up,
            },
        ) => {
            let part = PartSelect {
                up,
                count: width,
                bits: own_width(e),
            };
            let found = slid(alloc, names, from, base, part, indices, helpers)?;
            Ok(found)
        }
    }
}

/// What reads the element with the last index of an expression, which may be a memory.
#[cycle(follow)]
fn element(
    alloc: Global,
    names: &NameMap,
    from: &Expr,
    base: Option<&VExpr>,
    indices: &[StepIndex],
    helpers: &mut Helpers,
) -> Result<Reading, AllocError>
    requires typed { (meaning from.now).misfits ≡ 0 }
    requires narrow { (meaning from.now).widest ≤ 4194304 }
    requires short { AllShort indices.now }
    ensures grows { OnOk result (Grows helpers.old helpers.new) }
    ensures sound { IfOk result IsSound }
    ensures finds { IfOk result (FindsElement names.now (value_of (option_copied base.entry)) from.now indices.now helpers.new) }
{
    match indices.split_last() {
        None => Ok(whole_name(Text::new(alloc), 0)),
        Some((at, rest)) => match memory_at(names.signals.as_slice(), from) {
            Some(n) => {
                let memory = signal_text(alloc, names.signals.as_slice(), n)?;
                let read = steps::word(alloc, memory, &from.of, at)?;
                Ok(read)
            }
            None => {
                let found = follow(alloc, names, from, base, rest, helpers)?;
                let made = steps::element(alloc, found, &from.of, at, helpers)?;
                Ok(made)
            }
        },
    }
}

/// What reads an indexed part-select of an expression by its last index.
#[cycle(follow)]
fn slid(
    alloc: Global,
    names: &NameMap,
    from: &Expr,
    base: Option<&VExpr>,
    part: PartSelect,
    indices: &[StepIndex],
    helpers: &mut Helpers,
) -> Result<Reading, AllocError>
    requires typed { (meaning from.now).misfits ≡ 0 }
    requires narrow { (meaning from.now).widest ≤ 4194304 }
    requires short { AllShort indices.now }
    ensures grows { OnOk result (Grows helpers.old helpers.new) }
    ensures sound { IfOk result IsSound }
    ensures finds { IfOk result (FindsSlide names.now (value_of (option_copied base.entry)) from.now part indices.now helpers.new) }
{
    match indices.split_last() {
        None => Ok(whole_name(Text::new(alloc), 0)),
        Some((at, rest)) => {
            let found = follow(alloc, names, from, base, rest, helpers)?;
            let made = steps::slide(alloc, found, &from.of, part, at, helpers)?;
            Ok(made)
        }
    }
}

/// What a select path reads, in every context, by calls of some helpers more. The path stands on a signal or local, under its name in
/// the text, or on an expression of another form, by what that was lowered to alone. The indices are those of the path's `[i]`,
/// `[i +: n]` and `[i -: n]`, from what it stands on up. Or want of memory.
pub fn flatten(
    alloc: Global,
    names: &NameMap,
    e: &Expr,
    base: Option<&VExpr>,
    indices: &[StepIndex],
    helpers: &mut Helpers,
) -> Result<VExpr, AllocError>
    requires typed { (meaning e.now).misfits ≡ 0 }
    requires narrow { (meaning e.now).widest ≤ 4194304 }
    requires short { AllShort indices.now }
    ensures grows { OnOk result (Grows helpers.old helpers.new) }
    ensures flattens { IfOk result (λ m. Flattens names.now (value_of (option_copied base.entry)) e.now indices.now helpers.new (means.meaning m)) }
    ensures stands { IfOk result (λ m. StandsForPath names.now (value_of (option_copied base.entry)) e.now indices.now helpers.new (means.meaning m)) }
{
    let reading = follow(alloc, names, e, base, indices, helpers)?;
    let made = read(alloc, reading, &e.of, helpers)?;
    Ok(made)
}
