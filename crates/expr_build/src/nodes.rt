//! The parts of a node of a derivation, by their places in its row.

ghost use Rattle.std.specs.Prelude.{◌≡◌, drop};
ghost use Rattle.expr_build.specs.Nodes as means;

use ll_engine::Tree;
use sv_source::at;

/// The parts of a node.
pub fn kids(tree: &Tree) -> &[Tree]
    ensures { result.now ≡ means.kids_of tree.now }
{
    match tree {
        Tree::Leaf(_) => &[],
        Tree::Node { kids, .. } => kids.as_slice(),
    }
}

/// The parts of a node from a place on.
pub fn kids_from(tree: &Tree, place: usize) -> &[Tree]
    ensures { result.now ≡ drop place (means.kids_of tree.now) }
{
    let kids = kids(tree);
    if place <= kids.len() {
        &kids[place..]
    } else {
        &[]
    }
}

/// The row that a node was read by.
pub fn row(tree: &Tree) -> u16
    ensures { result ≡ means.row_of tree.now }
{
    match tree {
        Tree::Leaf(_) => 0,
        Tree::Node { row, .. } => *row,
    }
}

/// The part of a node in a place; the node itself where it has none.
pub fn kid(tree: &Tree, place: usize) -> &Tree
    ensures { result.now ≡ means.kid place tree.now }
{
    match at(kids(tree), place) {
        Some(kid) => kid,
        None => tree,
    }
}

/// The token of a leaf, or 0.
pub fn leaf(tree: &Tree) -> u32
    ensures { result ≡ means.token_of tree.now }
{
    match tree {
        Tree::Leaf(at) => *at,
        Tree::Node { .. } => 0,
    }
}

/// The token that is a node's part in a place.
pub fn token(tree: &Tree, place: usize) -> u32
    ensures { result ≡ means.token place tree.now }
{
    leaf(kid(tree, place))
}

/// A leaf's token, or that of a node's first part.
pub fn mark(tree: &Tree) -> u32
    ensures { result ≡ means.mark tree.now }
{
    match tree {
        Tree::Leaf(at) => *at,
        Tree::Node { .. } => token(tree, 0),
    }
}

/// Whether a head was read as empty.
pub fn is_blank(tree: &Tree) -> bool
    ensures { result ≡ means.is_blank tree.now }
{
    match kids(tree) {
        [] => true,
        [_, ..] => false,
    }
}
