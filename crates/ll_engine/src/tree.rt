use sqlite_items::Items;

/// What was read: a symbol, by its number among the symbols from 0, or a head, by the number of its row in the
/// table and what its parts read, in order. An optional part that was left out has no tree, a repeated one has
/// a tree for each turn.
#[derive(Debug, Drop)]
pub enum Tree {
    Leaf(u32),
    Node { row: u16, kids: Kids },
}

/// The trees of a row's parts, in order.
pub type Kids = Items<Tree>;
