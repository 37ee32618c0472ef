//! Indices of a select path that is written (IEEE 1800-2017 clauses 7.4.5 and 11.5.1).

ghost use Rattle.std.specs.Prelude.{◌≡◌, Some, [], ◌∷◌, ◌++◌, IfOk};
ghost use Rattle.target_walk.specs.declared.given.Given.TheVariants as givens;
ghost use Rattle.case_targets.specs.Naming.{given_for, givens_for};

use path_flatten::{Index, copy_expr};
use std::alloc::{AllocError, Global};
use sv_source::Items;
use target_walk::Given;

/// An index of a select path.
#[derive(Drop)]
pub enum PathIndex {
    /// One that is known, or selects from no part-select: targets are made with it.
    Plain(Given),
    /// One that selects from a part-select, lowered alone: targets are made for each number that it may have.
    InPart(Index),
}

/// Indices of which targets are made, the last step's first.
pub(crate) type Indices = Items<Given>;

/// A copy of a lowered index.
fn copy_index(alloc: Global, index: &Index) -> Result<Index, AllocError>
    ensures { IfOk result (λ i. i ≡ index.now) }
{
    let expr = copy_expr(alloc, &index.expr)?;
    Ok(Index {
        expr,
        width: index.width,
        signed: index.signed,
    })
}

/// A copy of an index.
fn copy_given(alloc: Global, given: &Given) -> Result<Given, AllocError>
    ensures { IfOk result (λ g. g ≡ given.now) }
{
    match given {
        Given::Known(k) => Ok(Given::Known(*k)),
        Given::Lowered { index, by } => {
            let index = copy_index(alloc, index)?;
            Ok(Given::Lowered { index, by: *by })
        }
    }
}

/// A copy of indices.
fn copies(alloc: Global, indices: &[Given]) -> Result<Indices, AllocError>
    ensures { IfOk result (λ gs. gs ≡ indices.now) }
{
    let mut made = Indices::new(alloc);
    for given in indices {
        made.push(copy_given(alloc, given)?)?;
    }
    Ok(made)
}

/// The same indices, and a copy of one more.
pub(crate) fn with_given(
    alloc: Global,
    indices: &[Given],
    given: &Given,
) -> Result<Indices, AllocError>
    ensures { IfOk result (λ gs. gs ≡ indices.now ++ given.now ∷ []) }
{
    let mut made = copies(alloc, indices)?;
    made.push(copy_given(alloc, given)?)?;
    Ok(made)
}

/// The same indices, and a number as one more.
pub(crate) fn with_number(alloc: Global, indices: &[Given], k: i128) -> Result<Indices, AllocError>
    ensures { IfOk result (λ gs. gs ≡ indices.now ++ givens.Known (Some k) ∷ []) }
{
    let mut made = copies(alloc, indices)?;
    made.push(Given::Known(Some(k)))?;
    Ok(made)
}

/// An index by its number, or as it is lowered, whatever it selects from.
fn given_of(alloc: Global, index: &PathIndex) -> Result<Given, AllocError>
    ensures { IfOk result (λ g. g ≡ given_for index.now) }
{
    match index {
        PathIndex::Plain(given) => copy_given(alloc, given),
        PathIndex::InPart(index) => {
            let index = copy_index(alloc, index)?;
            Ok(Given::Lowered { index, by: 0 })
        }
    }
}

/// All indices so.
pub(crate) fn givens_of(alloc: Global, indices: &[PathIndex]) -> Result<Indices, AllocError>
    ensures { IfOk result (λ gs. gs ≡ givens_for indices.now) }
{
    let mut made = Indices::new(alloc);
    for index in indices {
        made.push(given_of(alloc, index)?)?;
    }
    Ok(made)
}
