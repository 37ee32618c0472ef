//! Where the tokens of a target text stand.

ghost use Rattle.std.specs.Prelude.{◌≡◌, ◌<◌, ◌-◌, ◌^◌, length, take, drop, slice_get, IfOk};
ghost use Rattle.v_parse.specs.Spots.{behind, spot_of};

use std::alloc::{AllocError, Global};
use sv_source::{Text, at};
use v_lexer::VToken;

/// A place in a text, from 1:1, columns counting bytes.
#[derive(Clone, Copy)]
pub struct Place {
    /// The line.
    pub line: u32,
    /// The column.
    pub col: u32,
}

/// A token's place, and its text; the end of a text stands behind its last byte, and its word is `<end>`.
#[derive(Drop)]
pub struct Spot {
    /// Where the token begins.
    pub place: Place,
    /// The token's text.
    pub word: Text,
}

/// The place behind a text.
fn behind(bytes: &[u8]) -> Place
    requires { length bytes.now < 2 ^ 32 - 1 }
    ensures { result ≡ behind 1 1 bytes.now }
{
    let mut line = 1;
    let mut col = 1;
    for byte in bytes {
        if *byte == b'\n' {
            line += 1;
            col = 1;
        } else {
            col += 1;
        }
    }
    Place { line, col }
}

/// The bytes before this one, or all where there are no more.
fn before(bytes: &[u8], end: u32) -> &[u8]
    ensures { result.now ≡ take end bytes.now }
{
    let end = end as usize;
    if end <= bytes.len() {
        &bytes[..end]
    } else {
        bytes
    }
}

/// The bytes from this one on.
fn from(bytes: &[u8], start: u32) -> &[u8]
    ensures { result.now ≡ drop start bytes.now }
{
    let start = start as usize;
    if start <= bytes.len() {
        &bytes[start..]
    } else {
        &[]
    }
}

/// The spot of the token with this number among those of a text; its end where it has no such token. Want of memory is an error.
pub fn find_spot(
    alloc: Global,
    bytes: &[u8],
    tokens: &[VToken],
    number: u32,
) -> Result<Spot, AllocError>
    requires { length bytes.now < 2 ^ 32 - 1 }
    ensures { IfOk result (λ spot. spot ≡ spot_of bytes.now (slice_get tokens.now number)) }
{
    let Some(token) = at(tokens, number as usize) else {
        return Ok(Spot {
            place: behind(bytes),
            word: Text::from_bytes(alloc, b"<end>")?,
        });
    };
    let word = before(from(bytes, token.at), token.size);
    Ok(Spot {
        place: behind(before(bytes, token.at)),
        word: Text::from_bytes(alloc, word)?,
    })
}
