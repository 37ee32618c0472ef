//! What a text begins with.

ghost use Rattle.std.specs.Prelude.{◌≡◌, ◌+◌, ◌-◌, ◌^◌, ◌<◌, ◌≤◌, ◌∷◌, true, codes, length, IfOk};
ghost use Rattle.v_tree.specs.Tokens as spec;
ghost use Rattle.v_tree.specs.Tokens.{begins, until};
ghost use Rattle.v_lexer.specs.Seen.{piece_of, first_piece, length_behind, sized};

use crate::bytes::{
    begins, bits, digits, is_digit, is_letter, is_white, line_rest, printables, words,
};
use crate::numbers::{BOUND, decimal, vector};
use crate::spelled::{mark, single, spelled_symbol};
use crate::token::Says;
use std::alloc::{AllocError, Global};
use sv_source::Text;
use v_tree::is_reserved;

/// What a text begins with, and how many bytes it has behind the first one.
#[derive(Drop)]
pub enum Piece {
    /// White space or a comment.
    Gap(usize),
    /// A token: its symbol and what it says.
    Token(u16, Says, usize),
}

#[tactic(auto, unfolding(crate::specs::Seen::spelled_symbol))]
fn spelled_word(word: &[u8], further: usize) -> Piece
    ensures { result ≡ piece_of (spec.cut (spec.Token.word word.now) further) }
{
    Piece::Token(spelled_symbol(word), Says::Nothing, further)
}

// A name.
fn named(alloc: Global, name: &[u8], further: usize) -> Result<Piece, AllocError>
    ensures { IfOk result (λ p. p ≡ piece_of (spec.cut (spec.Token.name name.now) further)) }
{
    let name = Text::from_bytes(alloc, name)?;
    Ok(Piece::Token(1, Says::Name(name), further))
}

// Bytes that are no token.
fn stray(further: usize) -> Piece
    ensures { result ≡ piece_of (spec.cut spec.Token.stray further) }
{
    Piece::Token(0, Says::Nothing, further)
}

// A decimal number.
fn number(value: u32, further: usize) -> Piece
    ensures { result ≡ piece_of (spec.cut (spec.Token.decimal value) further) }
{
    let symbol = if value == 0 { 4 } else { 3 };
    Piece::Token(symbol, Says::Decimal(value), further)
}

// Digits: a decimal number below 2^32, or no token.
#[tactic(auto, using(crate::proofs::Cuts::decimals))]
fn decimal_piece(value: u64, further: usize) -> Piece
    ensures { result ≡ piece_of (spec.cut (spec.decimal_token value) further) }
{
    if value < BOUND {
        number(value as u32, further)
    } else {
        stray(further)
    }
}

// A reserved word, or a simple name (IEEE 1364-2005 clauses 3.7 and 3.8).
fn word_piece(alloc: Global, first: u8, text: &[u8], bytes: &[u8]) -> Result<Piece, AllocError>
    requires whole { bytes.now ≡ first ∷ text.now }
    ensures value { IfOk result (λ p. p ≡ piece_of (spec.word_cut first text.now)) }
    ensures within { IfOk result (λ p. length_behind p ≤ length text.now) }
{
    let further = words(text);
    let (name, _) = bytes.split_at(further + 1);
    if is_reserved(name) {
        Ok(spelled_word(name, further))
    } else {
        named(alloc, name, further)
    }
}

// Whether so many bits stand behind `'b`.
fn is_sized(size: u64, text: &[u8]) -> bool
    ensures value { result ≡ sized size text.now }
    ensures within { result ≡ true → size + 2 ≤ length text.now }
{
    match text {
        [b'\'', b'b', behind @ ..] => 1 <= size && size <= 128 && size as usize <= bits(behind),
        _ => false,
    }
}

// A sized binary number, or a decimal one, of which the first digits give the size.
fn sized_piece(alloc: Global, further: usize, size: u64, text: &[u8]) -> Result<Piece, AllocError>
    requires { further + length text.now < 2 ^ 62 }
    ensures value { IfOk result (λ p. p ≡ piece_of (spec.sized_cut further size text.now)) }
    ensures within { IfOk result (λ p. length_behind p ≤ further + length text.now) }
{
    if !is_sized(size, text) {
        return Ok(decimal_piece(size, further));
    }
    let (_, behind) = text.split_at(2);
    let (digits, _) = behind.split_at(size as usize);
    let bits = vector(alloc, digits)?;
    Ok(Piece::Token(2, Says::Number(bits), further + (2 + size as usize)))
}

// A number.
fn digit_piece(alloc: Global, first: u8, text: &[u8], bytes: &[u8]) -> Result<Piece, AllocError>
    requires whole { bytes.now ≡ first ∷ text.now }
    requires digit { spec.is_digit first ≡ true }
    requires long { length bytes.now < 2 ^ 62 }
    ensures value { IfOk result (λ p. p ≡ piece_of (spec.digit_cut first text.now)) }
    ensures within { IfOk result (λ p. length_behind p ≤ length text.now) }
{
    if first == b'0' {
        return Ok(number(0, 0));
    }
    let further = digits(text);
    let (number, behind) = bytes.split_at(further + 1);
    sized_piece(alloc, further, decimal(number), behind)
}

// An escaped identifier (IEEE 1364-2005 clause 3.7.1), or a backslash that is no token.
fn escaped_piece(alloc: Global, text: &[u8]) -> Result<Piece, AllocError>
    ensures value { IfOk result (λ p. p ≡ piece_of (spec.escaped_cut text.now)) }
    ensures within { IfOk result (λ p. length_behind p ≤ length text.now) }
{
    let count = printables(text);
    let (name, behind) = text.split_at(count);
    if 0 < count && begins(b" ", behind) {
        named(alloc, name, count + 1)
    } else {
        Ok(stray(0))
    }
}

// `$signed` or `$unsigned`, or a dollar sign that is no token.
fn system_piece(text: &[u8]) -> Piece
    ensures value { result ≡ piece_of (spec.system_cut text.now) }
    ensures within { length_behind result ≤ length text.now }
{
    if begins(b"unsigned", text) {
        spelled_word(b"$unsigned", 8)
    } else if begins(b"signed", text) {
        spelled_word(b"$signed", 6)
    } else {
        stray(0)
    }
}

// The longest mark, or a byte that is no token.
fn longer_mark(bytes: &[u8]) -> Piece
    requires some { 0 < length bytes.now }
    ensures value { result ≡ piece_of (spec.mark_cut bytes.now) }
    ensures within { length_behind result < length bytes.now }
{
    match mark(bytes) {
        Some((symbol, size)) => Piece::Token(symbol, Says::Nothing, size - 1),
        None => stray(0),
    }
}

// The longest mark, or a byte that is no token; most marks are a byte alone.
fn mark_piece(bytes: &[u8]) -> Piece
    requires some { 0 < length bytes.now }
    ensures value { result ≡ piece_of (spec.mark_cut bytes.now) }
    ensures within { length_behind result < length bytes.now }
{
    match single(bytes[0]) {
        Some(symbol) => Piece::Token(symbol, Says::Nothing, 0),
        None => longer_mark(bytes),
    }
}

// How many bytes stand before the first `*/`, or before the end.
fn before_close(bytes: &[u8]) -> usize
    ensures value { result ≡ until (begins (codes "*/")) bytes.now }
    ensures within { result ≤ length bytes.now }
    ensures closed { result < length bytes.now → result + 2 ≤ length bytes.now }
{
    for at in 0..bytes.len() {
        let (_, rest) = bytes.split_at(at);
        if begins(b"*/", rest) {
            return at;
        }
    }
    bytes.len()
}

// A comment behind its `/*`, or what isn't closed (IEEE 1364-2005 clause 3.3).
fn block_piece(text: &[u8]) -> Piece
    requires { length text.now < 2 ^ 62 }
    ensures value { result ≡ piece_of (spec.block_cut text.now) }
    ensures within { length_behind result ≤ length text.now + 1 }
{
    let body = before_close(text);
    if body < text.len() {
        Piece::Gap(body + 3)
    } else {
        stray(body + 1)
    }
}

// A comment, or a mark.
fn comment_or_mark(first: u8, text: &[u8], bytes: &[u8]) -> Piece
    requires whole { bytes.now ≡ first ∷ text.now }
    requires long { length bytes.now < 2 ^ 62 }
    ensures value { result ≡ piece_of (spec.comment_or_mark first text.now) }
    ensures within { length_behind result ≤ length text.now }
{
    if begins(b"//", bytes) {
        Piece::Gap(line_rest(text))
    } else if begins(b"/*", bytes) {
        let (_, behind) = text.split_at(1);
        block_piece(behind)
    } else {
        mark_piece(bytes)
    }
}

// What a text begins with that has this first byte.
fn piece_at(alloc: Global, first: u8, text: &[u8], bytes: &[u8]) -> Result<Piece, AllocError>
    requires whole { bytes.now ≡ first ∷ text.now }
    requires long { length bytes.now < 2 ^ 62 }
    ensures value { IfOk result (λ p. p ≡ piece_of (spec.first_cut first text.now)) }
    ensures within { IfOk result (λ p. length_behind p ≤ length text.now) }
{
    if is_letter(first) {
        word_piece(alloc, first, text, bytes)
    } else if is_digit(first) {
        digit_piece(alloc, first, text, bytes)
    } else if is_white(first) {
        Ok(Piece::Gap(0))
    } else if first == b'\\' {
        escaped_piece(alloc, text)
    } else if first == b'$' {
        Ok(system_piece(text))
    } else {
        Ok(comment_or_mark(first, text, bytes))
    }
}

/// What a text begins with, or want of memory.
pub fn first_piece(alloc: Global, bytes: &[u8]) -> Result<Piece, AllocError>
    requires some { 0 < length bytes.now }
    requires long { length bytes.now < 2 ^ 62 }
    ensures value { IfOk result (λ p. p ≡ first_piece bytes.now) }
    ensures within { IfOk result (λ p. length_behind p < length bytes.now) }
{
    match bytes {
        [first, text @ ..] => piece_at(alloc, *first, text, bytes),
        [] => Ok(Piece::Gap(0)),
    }
}
