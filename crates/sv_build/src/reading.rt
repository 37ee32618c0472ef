//! A source text, read into its tree.

ghost use Rattle.std.specs.Prelude.{◌≡◌, ◌<◌, ◌-◌, ◌^◌, Some, length, slice_get, IfOk};
ghost use Rattle.sv_build.specs.Reading as means;

use crate::attributes::without_attributes;
use crate::units::units;
use expr_build::NESTING_LIMIT;
use ll_engine::ParseFail;
use std::alloc::{AllocError, Global};
use sv_source::{Fail, Kind, Refusal, Text, Token, Tokens, at};
use sv_tree::{SourceTree, grammar, symbol_of};

/// The tokens of a text: those before the end token.
fn text(tokens: &[Token]) -> &[Token]
    ensures { result.now ≡ means.text tokens.now }
{
    match tokens {
        [] => &[],
        [before @ .., _] => before,
    }
}

/// The symbols by which a text is read.
fn symbols(alloc: Global, tokens: &Tokens) -> Result<Vec<u16>, AllocError>
    ensures { IfOk result (λ symbols. symbols.items ≡ means.symbols tokens.now) }
{
    let text = text(tokens.as_slice());
    let mut symbols = Vec::with_capacity(alloc, text.len())?;
    for token in text {
        symbols.push(symbol_of(token))?;
    }
    Ok(symbols)
}

/// The word of a token in a refusal.
fn word(alloc: Global, token: &Token) -> Result<Text, AllocError>
    ensures { IfOk result (λ word. word ≡ means.word_of token.now) }
{
    match token.kind {
        Kind::End => Text::from_bytes(alloc, b"<end>"),
        _ => token.text.copy(alloc),
    }
}

/// The refusal by a rule of a token.
fn refusal(alloc: Global, rule: u16, token: &Token) -> Result<Refusal, AllocError>
    ensures { IfOk result (λ r. r ≡ means.refusal_at rule token.now) }
{
    let word = word(alloc, token)?;
    Ok(Refusal {
        rule,
        place: token.place,
        word,
    })
}

/// The rule of a byte where no token begins.
fn byte_rule(text: &[u8]) -> u16
    ensures { result ≡ means.byte_rule text.now }
{
    match text {
        [c, ..] if *c > 127 => 103,
        _ => 301,
    }
}

/// The rule of a failing token.
fn failing_rule(token: &Token) -> u16
    ensures { result ≡ means.failing_rule token.now }
{
    match token.kind {
        Kind::Bad => byte_rule(token.text.as_bytes()),
        _ => 302,
    }
}

/// The refusal of the failing token with this number.
fn failing(alloc: Global, tokens: &[Token], index: u32) -> Result<Refusal, AllocError>
    requires { index < length tokens.now }
    ensures { IfOk result (λ r. means.at_token means.fails_at (slice_get tokens.now index) ≡ Some r) }
{
    match at(tokens, index as usize) {
        Some(token) => refusal(alloc, failing_rule(token), token),
        None => unreachable!(),
    }
}

/// The refusal of the token with this number, where nesting passes the limit.
fn nesting(alloc: Global, tokens: &[Token], index: u32) -> Result<Refusal, AllocError>
    requires { index < length tokens.now }
    ensures { IfOk result (λ r. means.at_token means.nests_at (slice_get tokens.now index) ≡ Some r) }
{
    match at(tokens, index as usize) {
        Some(token) => refusal(alloc, 303, token),
        None => unreachable!(),
    }
}

/// The tree of the tokens without attributes, in which it keeps them, read by their symbols.
fn read_symbols(alloc: Global, tokens: Tokens, symbols: &[u16]) -> Result<SourceTree, Fail>
    requires length { length symbols.now < 2 ^ 32 - 1 }
    requires ends { length symbols.now < length tokens }
    ensures { means.SymbolsGive tokens symbols.now result }
{
    let reader = grammar(alloc)?;
    match reader.parse(symbols, NESTING_LIMIT) {
        Ok(derivation) => {
            let units = units(alloc, &derivation)?;
            Ok(SourceTree { units, tokens })
        }
        Err(ParseFail::Memory) => Err(Fail::Memory),
        Err(ParseFail::NoText { at }) => {
            Err(Fail::Refused(failing(alloc, tokens.as_slice(), at)?))
        }
        Err(ParseFail::Deep { at }) => Err(Fail::Refused(nesting(alloc, tokens.as_slice(), at)?)),
    }
}

/// The tree of a source text (IEEE 1800-2017 annex A, the part that is read), with its tokens. They are fewer than 2^32 - 1,
/// and the last one is the end token. Attributes are dropped first.
///
/// Where the tokens have no reading, E302 stands at the failing token, which may be the end token: a text begins with the tokens
/// before it, and none with it too. Of a byte where no token begins it is E103, if the byte is above 127, or E301. E303 stands
/// where the nesting of expressions, statements, items of blocks, blocks and regions of generate constructs, types, targets in
/// braces and operators first passes 256, if that comes first.
pub fn read_source(alloc: Global, tokens: Tokens) -> Result<SourceTree, Fail>
    requires length { length tokens < 2 ^ 32 - 1 }
    requires ends { means.Ends tokens }
    ensures { means.ReadingGives tokens result }
{
    let tokens = without_attributes(alloc, tokens)?;
    let symbols = symbols(alloc, &tokens)?;
    read_symbols(alloc, tokens, symbols.as_slice())
}

/// The law that tokens read as one tree at most, or have one break at most, and not both.
#[tactic(auto, using(crate::proofs::OneReading::one_reading))]
pub fn has_one_reading(tokens: &[Token])
    ensures { means.OneReading tokens.now }
{
    let _tokens = tokens;
}
