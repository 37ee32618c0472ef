//! All tokens of a text.

ghost use Rattle.std.specs.Prelude.{◌≡◌, ◌+◌, ◌-◌, ◌^◌, ◌<◌, ◌++◌, length, map, IfOk, OnOk};
ghost use Rattle.v_lexer.specs.Seen.{token_of, tokens_of, length_behind};
ghost use Rattle.v_lexer.specs.Laws.{LexesTokens};

use crate::piece::{Piece, first_piece};
use crate::token::{VToken, VTokens};
use std::alloc::{AllocError, Global};

// The piece's token, if it is one, and how many bytes the piece has.
fn push_piece(tokens: &mut VTokens, piece: Piece, at: u32) -> Result<usize, AllocError>
    requires { length_behind piece < 2 ^ 32 - 1 }
    ensures pushed { OnOk result (tokens.new ≡ tokens.old ++ token_of piece at) }
    ensures size { IfOk result (λ size. size ≡ length_behind piece + 1) }
{
    match piece {
        Piece::Gap(further) => Ok(further + 1),
        Piece::Token(symbol, says, further) => {
            let size = further + 1;
            tokens.push(VToken {
                symbol,
                says,
                at,
                size: size as u32,
            })?;
            Ok(size)
        }
    }
}

/// The tokens of a text, the longest at each place (IEEE 1364-2005 clause 3), or want of memory.
pub fn lex(alloc: Global, bytes: &[u8]) -> Result<VTokens, AllocError>
    requires { length bytes.now < 2 ^ 32 - 1 }
    ensures { IfOk result (λ tokens. tokens ≡ tokens_of bytes.now) }
{
    let mut tokens = VTokens::new(alloc);
    let mut at = 0;
    while at < bytes.len() {
        let (_, rest) = bytes.split_at(at);
        let piece = first_piece(alloc, rest)?;
        at += push_piece(&mut tokens, piece, at as u32)?;
    }
    Ok(tokens)
}

/// The law that these tokens are those of the text, with their places.
pub fn lexes_tokens()
    ensures { LexesTokens }
{}
