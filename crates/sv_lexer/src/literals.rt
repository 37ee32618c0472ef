// Based literals, fills and strings: how many bytes of each begin a text.
ghost use Rattle.std.specs.Prelude.{◌≡◌, ◌+◌, ◌≤◌, ◌==◌, ◌&&◌, not, length, false};
ghost use Rattle.sv_lexer.specs.Bytes as bytes_spec;
ghost use Rattle.sv_lexer.specs.Spans.{run};
ghost use Rattle.sv_lexer.specs.Literals as spec;

use crate::bytes::{is_binary, is_blank, is_digit, is_hex, is_octal, is_unknown};
use crate::spans::one_more;

fn underscores(bytes: &[u8]) -> usize
    ensures value { result ≡ run (λ d. d == 95) bytes.now }
    ensures within { result ≤ length bytes.now }
{
    bytes.iter().take_while(|byte| **byte == b'_').count()
}

// Whether the byte is a digit of the base with this letter.
fn is_digit_of(base: u8, byte: u8) -> bool
    ensures { result ≡ spec.is_digit_of base byte }
{
    match base {
        b'b' | b'B' => is_binary(byte),
        b'o' | b'O' => is_octal(byte),
        b'd' | b'D' => is_digit(byte),
        b'h' | b'H' => is_hex(byte),
        _ => false,
    }
}

// Whether the byte stands alone as a digit of the base.
fn is_lone(base: u8, byte: u8) -> bool
    ensures { result ≡ spec.is_lone base byte }
{
    matches!(base, b'd' | b'D') && is_unknown(byte)
}

fn is_digit_or_underscore(base: u8, byte: u8) -> bool
    ensures { result ≡ spec.is_digit_or_underscore base byte }
{
    is_digit_of(base, byte) || byte == b'_'
}

fn digit_run(base: u8, bytes: &[u8]) -> usize
    ensures value { result ≡ run (spec.is_digit_or_underscore base) bytes.now }
    ensures within { result ≤ length bytes.now }
{
    bytes
        .iter()
        .take_while(|byte| is_digit_or_underscore(base, **byte))
        .count()
}

fn base_digits(base: u8, bytes: &[u8]) -> usize
    ensures value { result ≡ spec.base_digits_span base bytes.now }
    ensures within { result ≤ length bytes.now }
{
    match bytes {
        [first, rest @ ..] if is_lone(base, *first) => underscores(rest) + 1,
        [first, rest @ ..] if is_digit_of(base, *first) => digit_run(base, rest) + 1,
        _ => 0,
    }
}

fn blanks(bytes: &[u8]) -> usize
    ensures value { result ≡ run bytes_spec.is_blank bytes.now }
    ensures within { result ≤ length bytes.now }
{
    bytes.iter().take_while(|byte| is_blank(**byte)).count()
}

fn base_span(bytes: &[u8]) -> usize
    ensures value { result ≡ spec.base_span bytes.now }
    ensures within { result ≤ length bytes.now }
{
    let Some((base, rest)) = bytes.split_first() else {
        return 0;
    };
    let blanks = blanks(rest);
    let digits = base_digits(*base, &rest[blanks..]);
    if digits == 0 { 0 } else { blanks + digits + 1 }
}

fn signed_base_span(bytes: &[u8]) -> usize
    ensures value { result ≡ spec.signed_base_span bytes.now }
    ensures within { result ≤ length bytes.now }
{
    match bytes {
        [b's' | b'S', rest @ ..] => one_more(base_span(rest)),
        _ => base_span(bytes),
    }
}

/// A based literal without its size (IEEE 1800-2017 clause 5.7.1).
pub fn based_span(bytes: &[u8]) -> usize
    ensures value { result ≡ spec.based_span bytes.now }
    ensures within { result ≤ length bytes.now }
{
    match bytes {
        [b'\'', rest @ ..] => one_more(signed_base_span(rest)),
        _ => 0,
    }
}

/// A value for every bit (IEEE 1800-2017 clause 5.7.1).
pub fn fill_span(bytes: &[u8]) -> usize
    ensures value { result ≡ spec.fill_span bytes.now }
    ensures within { result ≤ length bytes.now }
{
    match bytes {
        [b'\'', b'0' | b'1' | b'x' | b'X' | b'z' | b'Z', ..] => 2,
        _ => 0,
    }
}

// Whether the byte closes a string.
fn closes(byte: u8, escaped: bool) -> bool
    ensures { result ≡ (byte == 34 && not escaped) }
{
    byte == b'"' && !escaped
}

// Whether the byte takes the next one with it.
fn escapes(byte: u8, escaped: bool) -> bool
    ensures { result ≡ (byte == 92 && not escaped) }
{
    byte == b'\\' && !escaped
}

// The rest of a string behind its quote, with the quote that closes it.
fn string_rest(bytes: &[u8]) -> usize
    ensures value { result ≡ spec.string_rest false bytes.now }
    ensures within { result ≤ length bytes.now }
{
    let mut escaped = false;
    for (at, byte) in bytes.iter().enumerate() {
        if *byte == b'\n' {
            return 0;
        }
        if closes(*byte, escaped) {
            return at + 1;
        }
        escaped = escapes(*byte, escaped);
    }
    0
}

/// A string with its quotes (IEEE 1800-2017 clause 5.9).
pub fn string_span(bytes: &[u8]) -> usize
    ensures value { result ≡ spec.string_span bytes.now }
    ensures within { result ≤ length bytes.now }
{
    match bytes {
        [b'"', rest @ ..] => one_more(string_rest(rest)),
        _ => 0,
    }
}
