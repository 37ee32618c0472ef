use crate::{Items, Text};

/// A place in a source. Places are ordered by file, then line, then column.
#[derive(Clone, Copy, PartialEq, Eq, PartialOrd, Ord, Debug)]
pub struct Place {
    /// The file's number, from 0, in the list of file names.
    pub file: u32,
    /// The line, from 1.
    pub line: u32,
    /// The column, from 1, in bytes.
    pub col: u32,
}

/// The kind of a raw token (IEEE 1800-2017 clauses 5.3 to 5.9, 5.12 and 22).
#[derive(Clone, Copy, PartialEq, Eq, Debug)]
pub enum Kind {
    /// A simple identifier that is no reserved word.
    Name,
    /// A reserved word.
    Reserved,
    /// Decimal digits.
    Decimal,
    /// A tick, a base and digits, as `'hff`.
    Based,
    /// A tick and one of `0 1 x z`, a value for every bit.
    Fill,
    /// An operator or a mark of punctuation.
    Mark,
    /// `$` and a name, as `$bits`.
    System,
    /// A string with its quotes.
    Str,
    /// A backquote and a name: a directive or the use of a macro.
    Directive,
    /// Two backquotes, which join tokens in a macro.
    Paste,
    /// A backquote before a quote, which turns macro text into a string.
    Quote,
    /// A newline.
    Line,
    /// A newline behind a backslash.
    Continued,
    /// A block comment that isn't closed, to the end of its file.
    Cut,
    /// A byte that begins no token.
    Bad,
    /// The end of all files.
    End,
}

/// A token: its kind, its bytes, and where it stands.
#[derive(Drop, Debug)]
pub struct Token {
    /// The kind.
    pub kind: Kind,
    /// The bytes as they stand in the source.
    pub text: Text,
    /// The place of the first byte.
    pub place: Place,
}

/// Tokens in the order of the text.
pub type Tokens = Items<Token>;

/// Where a thing of a source stands: its first token, by number, place and word.
#[derive(Drop, Debug)]
pub struct Spot {
    /// The token's number among the expanded tokens, from 0.
    pub at: u32,
    /// The token's place.
    pub place: Place,
    /// The token's text.
    pub word: Text,
}
