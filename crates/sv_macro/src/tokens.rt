// Tests on tokens, and how a token breaks a rule.
ghost use Rattle.std.specs.Prelude.{◌≡◌, IfOk, Err};
ghost use Rattle.sv_macro.specs.Tokens as spec;
ghost use Rattle.sv_macro.specs.Lists as lists;
ghost use Rattle.sv_source.specs.declared.refusal.Fail.TheVariants.{Refused};

use crate::words::{Word, word_of};
use std::alloc::{AllocError, Global};
use sv_source::{Fail, Kind, Place, Refusal, Text, Token};

/// Whether the token has this text.
pub fn is(token: &Token, text: &[u8]) -> bool
    ensures { result ≡ spec.is token.now text.now }
{
    token.text.as_bytes() == text
}

/// Whether it is a simple name.
pub fn is_name(token: &Token) -> bool
    ensures { result ≡ spec.is_name token.now }
{
    matches!(token.kind, Kind::Name)
}

/// Whether it is a simple name or a reserved word.
pub fn is_word(token: &Token) -> bool
    ensures { result ≡ spec.is_word token.now }
{
    matches!(token.kind, Kind::Name | Kind::Reserved)
}

/// Whether it is a decimal number.
pub fn is_decimal(token: &Token) -> bool
    ensures { result ≡ spec.is_decimal token.now }
{
    matches!(token.kind, Kind::Decimal)
}

/// Whether it is a string.
pub fn is_string(token: &Token) -> bool
    ensures { result ≡ spec.is_string token.now }
{
    matches!(token.kind, Kind::Str)
}

/// Whether it is a newline.
pub fn is_line(token: &Token) -> bool
    ensures { result ≡ spec.is_line token.now }
{
    matches!(token.kind, Kind::Line)
}

/// Whether it is a newline behind a backslash.
pub fn is_continued(token: &Token) -> bool
    ensures { result ≡ spec.is_continued token.now }
{
    matches!(token.kind, Kind::Continued)
}

// The name behind a directive's backquote.
fn name_bytes(token: &Token) -> &[u8]
    ensures { result.now ≡ spec.name_of token.now }
{
    match token.text.as_bytes() {
        [_, name @ ..] => name,
        empty => empty,
    }
}

/// The name behind a directive's backquote.
pub fn name_of(alloc: Global, token: &Token) -> Result<Text, AllocError>
    ensures { IfOk result (λ name. name ≡ spec.name_of token.now) }
{
    Text::from_bytes(alloc, name_bytes(token))
}

/// What a directive says.
pub fn said_by(token: &Token) -> Word
    ensures { result ≡ spec.said_by token.now }
{
    word_of(name_bytes(token))
}

/// Whether no argument may have it: a directive that isn't a use, or a quote that makes a string.
pub fn is_barred(token: &Token) -> bool
    ensures { result ≡ lists.is_barred token.now }
{
    match token.kind {
        Kind::Directive => said_by(token) != Word::Use,
        Kind::Quote => true,
        _ => false,
    }
}

/// Whether it is a comment that isn't closed.
pub fn is_cut(token: &Token) -> bool
    ensures { result ≡ lists.is_cut token.now }
{
    matches!(token.kind, Kind::Cut)
}

/// The token at another place.
pub fn moved(alloc: Global, place: Place, token: &Token) -> Result<Token, AllocError>
    ensures { IfOk result (λ copy. copy ≡ spec.moved place token.now) }
{
    let text = token.text.copy(alloc)?;
    Ok(Token {
        kind: token.kind,
        text,
        place,
    })
}

/// The rule is broken at the token.
pub fn broken(rule: u16, token: Token) -> Fail
    ensures { result ≡ Refused (record { rule = rule; place = token.place; word = token.text }) }
{
    Fail::Refused(Refusal {
        rule,
        place: token.place,
        word: token.text,
    })
}
