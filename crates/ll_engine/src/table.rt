use sqlite_items::Items;

/// One part of a row: a symbol, or a head that is read once, at most once, any number of times, or any number
/// of times with nesting. Symbols and heads are numbers, each of a kind of its own.
#[derive(Clone, Copy, Debug)]
pub enum Part {
    /// The symbol.
    Term(u16),
    /// The head, once; it may be read as empty where it can be empty.
    Non(u16),
    /// The head, or nothing.
    Maybe(u16),
    /// The head, any number of times.
    Many(u16),
    /// The head, any number of times, each turn counting as nesting from its first symbol until the last turn
    /// ends.
    Chain(u16),
}

/// The parts of a row, in order.
pub type Parts = Items<Part>;

/// An alternative of a head. While a deep row is read, nesting is one greater.
#[derive(Debug, Drop)]
pub struct Row {
    pub head: u16,
    pub parts: Parts,
    pub deep: bool,
}

/// The rows of a table, numbered from 0. A text of the table is a text of the head of the first row.
pub type Table = Items<Row>;
