//! Spans of numbers, and uses of them at tokens.

use sqlite_items::Items;

/// The numbers from `low` up to, but not including, `high`.
#[derive(Clone, Copy, Debug)]
pub struct Span {
    /// The first number.
    pub low: u128,
    /// The number behind the last one.
    pub high: u128,
}

/// A set of numbers: spans in ascending order.
pub type Spans = Items<Span>;

/// A span that is used at a token.
#[derive(Clone, Copy, Debug)]
pub struct Use {
    /// What is used.
    pub span: Span,
    /// The token.
    pub at: u32,
}

/// Uses in the order in which they were met.
pub type Uses = Items<Use>;
