//! What is kept of a token.

use b4_core::Vec4;
use sv_source::{Items, Text};

/// What a token says beside its symbol.
#[derive(Drop)]
pub enum Says {
    /// Nothing: a mark, a word, or bytes that are no token.
    Nothing,
    /// A name: its bytes, those of an escaped identifier without the backslash and the space.
    Name(Text),
    /// A sized binary number, its bits least first.
    Number(Vec4),
    /// A decimal number.
    Decimal(u32),
}

/// A token of a text.
#[derive(Drop)]
pub struct VToken {
    /// The symbol by which the grammar reads it.
    pub symbol: u16,
    /// What it says.
    pub says: Says,
    /// The number of its first byte in the text, from 0.
    pub at: u32,
    /// How many bytes it has.
    pub size: u32,
}

/// Tokens in the order of the text.
pub type VTokens = Items<VToken>;
