// The tokens of a file.
ghost use Rattle.std.specs.Prelude.{◌≡◌, ◌+◌, ◌-◌, ◌^◌, ◌<◌, ◌≤◌, ◌++◌, ◌==◌, ◌&&◌, ◌||◌, codes, length, All, IfOk, OnOk};
ghost use Rattle.sv_lexer.specs.Spans.{begins};
ghost use Rattle.sv_lexer.specs.Facts.{IsRaw};
ghost use Rattle.sv_lexer.specs.Lexing.{behind_byte, behind_bytes, kind_of, token_of, tokens_of};

use crate::literals::string_span;
use crate::piece::longest;
use crate::tables::Tables;
use std::alloc::{AllocError, Global};
use sv_source::{Kind, Place, Text, Token, Tokens};

fn behind_byte(place: Place, byte: u8) -> Place
    requires { (place.line < 2 ^ 32 - 1) × (place.col < 2 ^ 32 - 1) }
    ensures value { result ≡ behind_byte place byte }
    ensures line { result.line ≤ place.line + 1 }
    ensures col { 1 ≤ result.col }
    ensures col_most { 1 ≤ place.col → result.col ≤ place.col + 1 }
{
    let Place { file, line, col } = place;
    if byte == b'\n' {
        Place {
            file,
            line: line + 1,
            col: 1,
        }
    } else {
        Place {
            file,
            line,
            col: col + 1,
        }
    }
}

/// The place behind some bytes that begin at this place: a newline begins the next line, columns count bytes.
pub fn place_behind(place: Place, bytes: &[u8]) -> Place
    requires line { place.line + length bytes.now < 2 ^ 32 }
    requires col { place.col + length bytes.now < 2 ^ 32 }
    requires col_least { 1 ≤ place.col }
    ensures value { result ≡ behind_bytes place bytes.now }
    ensures line { result.line ≤ place.line + length bytes.now }
    ensures col { result.col ≤ place.col + length bytes.now }
    ensures col_least { 1 ≤ result.col }
{
    let mut behind = place;
    for byte in bytes {
        behind = behind_byte(behind, *byte);
    }
    behind
}

// A name that is a reserved word has the kind of these.
fn kind_of(tables: &Tables, kind: Kind, text: &[u8]) -> Kind
    ensures { result ≡ kind_of kind text.now }
{
    if kind == Kind::Name && tables.is_reserved(text) {
        Kind::Reserved
    } else {
        kind
    }
}

fn push_token(
    alloc: Global,
    tables: &Tables,
    tokens: &mut Tokens,
    kind: Option<Kind>,
    text: &[u8],
    place: Place,
) -> Result<(), AllocError>
    ensures { OnOk result (tokens.new ≡ tokens.old ++ token_of kind text.now place) }
{
    match kind {
        None => Ok(()),
        Some(kind) => tokens.push(Token {
            kind: kind_of(tables, kind, text),
            text: Text::from_bytes(alloc, text)?,
            place,
        }),
    }
}

// Whether it is known behind a piece that no string begins on the rest of the line: it was known before, or a quote
// that begins no string was the piece.
fn stays_open(no_string: bool, rest: &[u8], string: usize, same_line: bool) -> bool
    ensures { result ≡ (same_line && (no_string || string == 0 && begins rest.now (codes "\""))) }
{
    same_line && (no_string || string == 0 && rest.starts_with(b"\""))
}

/// The tokens of the file with this number, each the longest that begins at its place (IEEE 1800-2017 clauses 5.2
/// to 5.9), or want of memory. White space and comments give none.
pub fn lex(alloc: Global, file: u32, bytes: &[u8]) -> Result<Tokens, AllocError>
    requires { length bytes.now < 2 ^ 32 - 1 }
    ensures tokens { IfOk result (λ tokens. tokens ≡ tokens_of file bytes.now) }
    // Two facts about every such list: it has no more tokens than bytes, and each has bytes and isn't the end.
    ensures count { IfOk result (λ tokens. length tokens ≤ length bytes.now) }
    ensures raw { IfOk result (All IsRaw) }
{
    let tables = Tables::new(alloc)?;
    let mut tokens = Tokens::new(alloc);
    let mut place = Place {
        file,
        line: 1,
        col: 1,
    };
    // Once a quote on a line isn't closed, no later one on it is: each line is looked through for strings once.
    let mut no_string = false;
    let mut rest = bytes;
    while !rest.is_empty() {
        let string = if no_string { 0 } else { string_span(rest) };
        let piece = longest(&tables, rest, string);
        let (text, after) = rest.split_at(piece.len);
        push_token(alloc, &tables, &mut tokens, piece.kind, text, place)?;
        let next = place_behind(place, text);
        no_string = stays_open(no_string, rest, string, next.line == place.line);
        place = next;
        rest = after;
    }
    Ok(tokens)
}
