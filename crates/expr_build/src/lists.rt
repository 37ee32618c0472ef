//! Lists of pieces of a text.

ghost use Rattle.std.specs.Prelude.{◌≡◌, ◌∷◌, ◌++◌, [], map, IfOk};
ghost use Rattle.ll_engine.specs.declared.tree.Tree.{Tree as TreeModel};
ghost use Rattle.expr_build.specs.Nodes.{behind_marks, separated};

use crate::nodes::kid;
use ll_engine::Tree;
use std::alloc::{AllocError, Global};
use sv_source::Items;

/// A kind of pieces of a text.
pub trait Piece {
    /// A piece of the kind.
    type Value: Drop;

    ghost value: { TreeModel → Self.Value };

    /// The piece of a derivation, or want of memory.
    fn piece(alloc: Global, tree: &Tree) -> Result<Self::Value, AllocError>
        ensures { IfOk result (λ piece. piece ≡ value tree.now) };
}

/// A list with one more item behind it, or want of memory.
pub fn with_last<T: Drop>(list: Items<T>, last: T) -> Result<Items<T>, AllocError>
    ensures { IfOk result (λ items. items ≡ list ++ last ∷ []) }
{
    let mut list = list;
    list.push(last)?;
    Ok(list)
}

/// The pieces of derivations, or want of memory.
pub fn each<P: Piece>(alloc: Global, trees: &[Tree]) -> Result<Items<P::Value>, AllocError>
    ensures { IfOk result (λ pieces. pieces ≡ map P.value trees.now) }
{
    let mut pieces = Items::new(alloc);
    for tree in trees {
        pieces.push(P::piece(alloc, tree)?)?;
    }
    Ok(pieces)
}

/// A first piece and those behind commas, or want of memory.
pub fn behind<P: Piece>(
    alloc: Global,
    first: P::Value,
    rest: &[Tree],
) -> Result<Items<P::Value>, AllocError>
    ensures { IfOk result (λ pieces. pieces ≡ first ∷ behind_marks P.value rest.now) }
{
    let mut pieces = Items::new(alloc);
    pieces.push(first)?;
    for next in rest {
        pieces.push(P::piece(alloc, kid(next, 1))?)?;
    }
    Ok(pieces)
}

/// Pieces between commas, or none, or want of memory.
pub fn pieces<P: Piece>(alloc: Global, trees: &[Tree]) -> Result<Items<P::Value>, AllocError>
    ensures { IfOk result (λ pieces. pieces ≡ separated P.value trees.now) }
{
    match trees {
        [] => Ok(Items::new(alloc)),
        [first, rest @ ..] => {
            let first = P::piece(alloc, first)?;
            behind::<P>(alloc, first, rest)
        }
    }
}
