//! Indices of select paths that are read: known, or lowered.

ghost use Rattle.std.specs.Prelude.{◌≡◌, IfOk};

use path_flatten::{Index, copy_expr};
use std::alloc::{AllocError, Global};

/// An index of a select path.
#[derive(Drop)]
pub enum StepIndex {
    /// A known number, or none where the index has x or z.
    Known(Option<i128>),
    /// An index that is lowered alone.
    Lowered(Index),
}

/// The same index once more.
pub(crate) fn copy_index(alloc: Global, index: &Index) -> Result<Index, AllocError>
    ensures { IfOk result (λ x. x ≡ index.now) }
{
    let expr = copy_expr(alloc, &index.expr)?;
    Ok(Index {
        expr,
        width: index.width,
        signed: index.signed,
    })
}
