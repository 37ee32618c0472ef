// Simple names, and the macros of the command line.
ghost use Rattle.std.specs.Prelude.{◌≡◌, ◌<◌, ◌≤◌, ◌-◌, ◌^◌, not, length, IfOk};
ghost use Rattle.std.specs.Option.{is_some};
ghost use Rattle.sv_macro.specs.Definitions.{barred, first_barred};
ghost use Rattle.command_line.specs.Words as spec;

use std::alloc::{AllocError, Global};
use sv_lexer::lex;
use sv_macro::tokens::{is, is_name, said_by};
use sv_macro::words::Word;
use sv_preproc::Define;
use sv_source::{Kind, Text, Token};

fn is_one_name(text: &[u8], tokens: &[Token]) -> bool
    ensures { result ≡ spec.is_one_name text.now tokens.now }
{
    match tokens {
        [token] => is_name(token) && is(token, text),
        _ => false,
    }
}

/// Whether the text is a simple name.
pub fn is_simple_name(alloc: Global, text: &[u8]) -> Result<bool, AllocError>
    requires { length text.now < 2 ^ 32 - 1 }
    ensures { IfOk result (λ b. b ≡ spec.is_simple_name text.now) }
{
    let tokens = lex(alloc, 0, text)?;
    Ok(is_one_name(text, tokens.as_slice()))
}

// Whether no body of a macro has the token: it is a comment that isn't closed, or a directive.
fn is_barred(token: &Token) -> bool
    ensures { result ≡ is_some (barred token.now) }
{
    match token.kind {
        Kind::Cut => true,
        Kind::Directive => !matches!(said_by(token), Word::Use),
        _ => false,
    }
}

fn has_barred(tokens: &[Token]) -> bool
    ensures { result ≡ is_some (first_barred tokens.now) }
{
    for token in tokens {
        if is_barred(token) {
            return true;
        }
    }
    false
}

fn has_newline(text: &[u8]) -> bool
    ensures { result ≡ spec.has_newline text.now }
{
    text.iter().any(|byte| *byte == b'\n')
}

// How long the name before `=` is.
fn name_length(text: &[u8]) -> usize
    ensures value { result ≡ length (spec.name_before text.now) }
    ensures within { result ≤ length text.now }
{
    text.iter().take_while(|byte| **byte != b'=').count()
}

/// The macro that `NAME` or `NAME=TEXT` defines. `None` where the name isn't simple, or the text is no body.
pub fn define_of(alloc: Global, text: &[u8]) -> Result<Option<Define>, AllocError>
    requires { length text.now < 2 ^ 32 - 1 }
    ensures { IfOk result (λ define. define ≡ spec.define_of text.now) }
{
    let end = name_length(text);
    let name = &text[..end];
    let body = text.get(end + 1..).unwrap_or(&[]);
    if !is_simple_name(alloc, name)? || has_newline(body) {
        return Ok(None);
    }
    let tokens = lex(alloc, 0, body)?;
    if has_barred(tokens.as_slice()) {
        return Ok(None);
    }
    Ok(Some(Define {
        name: Text::from_bytes(alloc, name)?,
        body: tokens,
    }))
}
