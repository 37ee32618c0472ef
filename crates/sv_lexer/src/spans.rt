// How many bytes of each kind begin a text, and 0 where the text begins with none of the kind.
ghost use Rattle.std.specs.Prelude.{◌≡◌, ◌≤◌, ◌<◌, ◌^◌, length};
ghost use Rattle.sv_lexer.specs.Bytes as bytes_spec;
ghost use Rattle.sv_lexer.specs.Spans as spec;

use crate::bytes::{is_decimal, is_digit, is_letter, is_white, is_word};

// How many bytes at the front are of the class that a test gives.
fn word_run(bytes: &[u8]) -> usize
    ensures value { result ≡ spec.run bytes_spec.is_word bytes.now }
    ensures within { result ≤ length bytes.now }
{
    bytes.iter().take_while(|byte| is_word(**byte)).count()
}

/// White space: spaces, tabs, form feeds and carriage returns (IEEE 1800-2017 clause 5.3).
pub fn white_span(bytes: &[u8]) -> usize
    ensures value { result ≡ spec.white_span bytes.now }
    ensures within { result ≤ length bytes.now }
{
    bytes.iter().take_while(|byte| is_white(**byte)).count()
}

/// A simple identifier or a reserved word (IEEE 1800-2017 clauses 5.6 and 5.6.2).
pub fn name_span(bytes: &[u8]) -> usize
    ensures value { result ≡ spec.name_span bytes.now }
    ensures within { result ≤ length bytes.now }
{
    match bytes {
        [first, rest @ ..] if is_letter(*first) => word_run(rest) + 1,
        _ => 0,
    }
}

/// A system name (IEEE 1800-2017 clause 5.6.3).
pub fn system_span(bytes: &[u8]) -> usize
    ensures value { result ≡ spec.system_span bytes.now }
    ensures within { result ≤ length bytes.now }
{
    match bytes {
        [b'$', rest @ ..] => one_more(name_span(rest)),
        _ => 0,
    }
}

/// One byte more, where there are some.
pub fn one_more(count: usize) -> usize
    requires { count < 2 ^ 63 }
    ensures { result ≡ spec.one_more count }
{
    if count == 0 { 0 } else { count + 1 }
}

/// A newline.
pub fn line_span(bytes: &[u8]) -> usize
    ensures value { result ≡ spec.line_span bytes.now }
    ensures within { result ≤ length bytes.now }
{
    if bytes.starts_with(b"\n") { 1 } else { 0 }
}

/// A backslash and the newline behind it.
pub fn continued_span(bytes: &[u8]) -> usize
    ensures value { result ≡ spec.continued_span bytes.now }
    ensures within { result ≤ length bytes.now }
{
    if bytes.starts_with(b"\\\n") {
        2
    } else if bytes.starts_with(b"\\\r\n") {
        3
    } else {
        0
    }
}

/// A directive or the use of a macro (IEEE 1800-2017 clause 5.6.4).
pub fn directive_span(bytes: &[u8]) -> usize
    ensures value { result ≡ spec.directive_span bytes.now }
    ensures within { result ≤ length bytes.now }
{
    match bytes {
        [b'`', rest @ ..] => one_more(name_span(rest)),
        _ => 0,
    }
}

/// Two backquotes (IEEE 1800-2017 clause 22.5.1).
pub fn paste_span(bytes: &[u8]) -> usize
    ensures value { result ≡ spec.paste_span bytes.now }
    ensures within { result ≤ length bytes.now }
{
    if bytes.starts_with(b"``") { 2 } else { 0 }
}

/// A backquote and a quote, perhaps with a backslash and a backquote between (IEEE 1800-2017 clause 22.5.1).
pub fn quote_span(bytes: &[u8]) -> usize
    ensures value { result ≡ spec.quote_span bytes.now }
    ensures within { result ≤ length bytes.now }
{
    if bytes.starts_with(b"`\"") {
        2
    } else if bytes.starts_with(b"`\\`\"") {
        4
    } else {
        0
    }
}

fn decimal_run(bytes: &[u8]) -> usize
    ensures value { result ≡ spec.run bytes_spec.is_decimal bytes.now }
    ensures within { result ≤ length bytes.now }
{
    bytes.iter().take_while(|byte| is_decimal(**byte)).count()
}

/// Decimal digits (IEEE 1800-2017 clause 5.7.1).
pub fn decimal_span(bytes: &[u8]) -> usize
    ensures value { result ≡ spec.decimal_span bytes.now }
    ensures within { result ≤ length bytes.now }
{
    match bytes {
        [first, rest @ ..] if is_digit(*first) => decimal_run(rest) + 1,
        _ => 0,
    }
}
