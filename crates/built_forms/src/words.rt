//! Tokens and names of a tree.

ghost use Rattle.std.specs.Prelude.{◌≡◌, IfOk};
ghost use Rattle.built_forms.specs.Built as means;

use std::alloc::{AllocError, Global};
use sv_source::{Kind, Spot, Token, at};

/// A token by its number, with its place and its word.
fn spot_with(alloc: Global, index: u32, token: &Token) -> Result<Spot, AllocError>
    ensures { IfOk result (λ s. s ≡ means.spot_with index token.now) }
{
    let word = token.text.copy(alloc)?;
    let place = token.place;
    Ok(Spot {
        at: index,
        place,
        word,
    })
}

/// A token by its number.
pub fn spot(alloc: Global, tokens: &[Token], index: u32) -> Result<Option<Spot>, AllocError>
    ensures { IfOk result (λ s. s ≡ means.spot_of tokens.now index) }
{
    match at(tokens, index as usize) {
        None => Ok(None),
        Some(token) => Ok(Some(spot_with(alloc, index, token)?)),
    }
}

/// A name by its token's number.
pub fn name(alloc: Global, tokens: &[Token], index: u32) -> Result<Option<Spot>, AllocError>
    ensures { IfOk result (λ s. s ≡ means.name_of tokens.now index) }
{
    match at(tokens, index as usize) {
        None => Ok(None),
        Some(token) => match token.kind {
            Kind::Name => Ok(Some(spot_with(alloc, index, token)?)),
            _ => Ok(None),
        },
    }
}
