//! Attributes (IEEE 1800-2017 clause 5.12), which are dropped before a text is read.

ghost use Rattle.std.specs.Prelude.{◌≡◌, ◌∷◌, List, reverse, IfOk};
ghost use Rattle.sv_source.specs.declared.token.Token.{Token as TokenModel};
ghost use Rattle.sv_build.specs.Attributes as means;

use std::alloc::{AllocError, Global};
use sv_source::{Items, Kind, Token, Tokens};

/// Whether a token is this mark.
fn is_mark(token: &Token, text: &[u8]) -> bool
    ensures { result ≡ means.is_mark text.now token.now }
{
    match token.kind {
        Kind::Mark => token.text.is(text),
        _ => false,
    }
}

/// Whether a token closes an attribute.
fn closes(token: &Token) -> bool
    ensures { result ≡ means.closes token.now }
{
    is_mark(token, b"*)")
}

/// Whether the next token, the last of those that come from the end on, is `)`.
fn next_is_parenthesis(coming: &[Token]) -> bool
    ensures { result ≡ means.next_is_parenthesis (reverse coming.now) }
{
    match coming {
        [] => false,
        [.., next] => is_mark(next, b")"),
    }
}

/// How many of the tokens close an attribute.
fn count_closings(tokens: &Tokens) -> usize
    ensures { result ≡ means.closings tokens.now }
{
    let mut closings = 0;
    for token in tokens.as_slice() {
        if closes(token) {
            closings += 1;
        }
    }
    closings
}

/// The tokens from the end on.
#[tactic(auto, using(crate::proofs::Kept::steps))]
fn turned(alloc: Global, tokens: Tokens) -> Result<Vec<Token>, AllocError>
    ensures { IfOk result (λ turned. reverse turned.items ≡ tokens) }
{
    let mut tokens = tokens;
    let mut turned = Vec::new(alloc);
    while let Some(token) = tokens.pop() {
        turned.push(token)?;
    }
    Ok(turned)
}

/// How many close an attribute behind a token, where so many do from it on.
fn closings_behind(token: &Token, closings: usize) -> usize
    ensures { (rest : List TokenModel) → closings ≡ means.closings (token.now ∷ rest) → result ≡ means.closings rest }
{
    if closes(token) {
        closings.saturating_sub(1)
    } else {
        closings
    }
}

/// Whether a token opens an attribute, before tokens that come from the end on and of which so many close one.
fn opens(token: &Token, coming: &[Token], closings: usize) -> bool
    requires { closings ≡ means.closings (reverse coming.now) }
    ensures { result ≡ means.opens token.now (reverse coming.now) }
{
    is_mark(token, b"(*") && !next_is_parenthesis(coming) && closings > 0
}

/// The tokens that stand in no attribute, from tokens that come from the end on and of which so many close an attribute.
#[tactic(auto, using(crate::proofs::Kept::steps))]
fn kept(alloc: Global, tokens: Vec<Token>, closings: usize) -> Result<Tokens, AllocError>
    requires { closings ≡ means.closings (reverse tokens.items) }
    ensures { IfOk result (λ kept. kept ≡ means.without_attributes (reverse tokens.items)) }
{
    let mut coming = tokens;
    let mut left = closings;
    let mut kept = Items::new(alloc);
    let mut inside = false;
    while let Some(token) = coming.pop() {
        left = closings_behind(&token, left);
        if inside {
            inside = !closes(&token);
        } else if opens(&token, &coming, left) {
            inside = true;
        } else {
            kept.push(token)?;
        }
    }
    Ok(kept)
}

/// The tokens that stand in no attribute.
pub fn without_attributes(alloc: Global, tokens: Tokens) -> Result<Tokens, AllocError>
    ensures { IfOk result (λ kept. kept ≡ means.without_attributes tokens) }
{
    let closings = count_closings(&tokens);
    if closings == 0 {
        return Ok(tokens);
    }
    let coming = turned(alloc, tokens)?;
    kept(alloc, coming, closings)
}
