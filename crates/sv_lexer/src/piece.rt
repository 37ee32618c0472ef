// The longest piece at the front of a text.
ghost use Rattle.std.specs.Prelude.{◌≡◌, ◌<◌, ◌≤◌, ℕ, length};
ghost use Rattle.sv_lexer.specs.Literals.{string_span};
ghost use Rattle.sv_source.specs.declared.token.Kind.TheVariants.{Mark, Bad};
ghost use Rattle.sv_lexer.specs.Pieces.{longest, longer, token};
ghost use Rattle.sv_lexer.specs.Tables.{mark_span};

use crate::bytes::{is_digit, is_letter, is_white, opens_many};
use crate::comments::{block_comment_span, cut_span, line_comment_span};
use crate::literals::{based_span, fill_span};
use crate::spans::{
    continued_span, decimal_span, directive_span, line_span, name_span, paste_span, quote_span,
    system_span, white_span,
};
use crate::tables::Tables;
use sv_source::Kind;

/// What stands at the front of a text: a token, or a gap of white space or a comment, and how many bytes it has.
#[derive(Clone, Copy)]
pub struct Piece {
    /// The token's kind, or nothing for a gap.
    pub kind: Option<Kind>,
    /// The length in bytes.
    pub len: usize,
}

impl Piece {
    ghost use Rattle.sv_lexer.specs.Pieces as spec;

    fn gap(len: usize) -> Piece
        ensures value { result ≡ spec.gap len }
        ensures len { result.len ≡ len }
    {
        Piece { kind: None, len }
    }

    fn token(kind: Kind, len: usize) -> Piece
        ensures value { result ≡ spec.token kind len }
        ensures len { result.len ≡ len }
    {
        Piece {
            kind: Some(kind),
            len,
        }
    }

    // The longer one, and the first of two with one length.
    fn longer(self, other: Piece) -> Piece
        ensures value { result ≡ spec.longer self other }
        ensures bound { (most : ℕ) → self.len ≤ most → other.len ≤ most → result.len ≤ most }
        ensures least { other.len ≤ result.len }
    {
        if self.len < other.len { other } else { self }
    }
}

// The longest piece of all kinds.
#[tactic(auto, unfolding(crate::specs::Pieces::longest))]
fn longest_of_all(tables: &Tables, bytes: &[u8], string: usize) -> Piece
    requires some { 0 < length bytes.now }
    requires string { string ≡ string_span bytes.now }
    requires string_within { string ≤ length bytes.now }
    ensures value { result ≡ longest bytes.now }
    ensures some { 0 < result.len }
    ensures within { result.len ≤ length bytes.now }
{
    Piece::gap(white_span(bytes))
        .longer(Piece::gap(line_comment_span(bytes)))
        .longer(Piece::gap(block_comment_span(bytes)))
        .longer(Piece::token(Kind::Cut, cut_span(bytes)))
        .longer(Piece::token(Kind::Line, line_span(bytes)))
        .longer(Piece::token(Kind::Continued, continued_span(bytes)))
        .longer(Piece::token(Kind::Name, name_span(bytes)))
        .longer(Piece::token(Kind::System, system_span(bytes)))
        .longer(Piece::token(Kind::Decimal, decimal_span(bytes)))
        .longer(Piece::token(Kind::Based, based_span(bytes)))
        .longer(Piece::token(Kind::Fill, fill_span(bytes)))
        .longer(Piece::token(Kind::Str, string))
        .longer(Piece::token(Kind::Directive, directive_span(bytes)))
        .longer(Piece::token(Kind::Paste, paste_span(bytes)))
        .longer(Piece::token(Kind::Quote, quote_span(bytes)))
        .longer(Piece::token(Kind::Mark, tables.mark_span(bytes)))
        .longer(Piece::token(Kind::Bad, 1))
}

// The longest mark, or any byte alone.
fn mark_or_bad(tables: &Tables, bytes: &[u8]) -> Piece
    requires { 0 < length bytes.now }
    ensures value { result ≡ longer (token Mark (mark_span bytes.now)) (token Bad 1) }
    ensures some { 0 < result.len }
    ensures within { result.len ≤ length bytes.now }
{
    Piece::token(Kind::Mark, tables.mark_span(bytes)).longer(Piece::token(Kind::Bad, 1))
}

/// The longest piece at the front of a text; `string` is the length of the string there, or 0.
pub fn longest(tables: &Tables, bytes: &[u8], string: usize) -> Piece
    requires some { 0 < length bytes.now }
    requires string { string ≡ string_span bytes.now }
    requires string_within { string ≤ length bytes.now }
    ensures value { result ≡ longest bytes.now }
    ensures some { 0 < result.len }
    ensures within { result.len ≤ length bytes.now }
{
    let first = bytes[0];
    if is_white(first) {
        Piece::gap(white_span(bytes))
    } else if is_letter(first) {
        Piece::token(Kind::Name, name_span(bytes))
    } else if is_digit(first) {
        Piece::token(Kind::Decimal, decimal_span(bytes))
    } else if first == b'\n' {
        Piece::token(Kind::Line, 1)
    } else if opens_many(first) {
        longest_of_all(tables, bytes, string)
    } else {
        mark_or_bad(tables, bytes)
    }
}
