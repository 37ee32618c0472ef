//! A target text, read into its design.

ghost use Rattle.std.specs.Prelude.{◌≡◌, ◌<◌, ◌-◌, ◌^◌, length, IfOk};
ghost use Rattle.ll_engine.specs.Texts.{IsReading};
ghost use Rattle.v_tree.specs.Table.{table};
ghost use Rattle.v_tree.specs.Reading.{nesting_limit};
ghost use Rattle.v_tree.specs.declared.parts.VPart.TheVariants as P;
ghost use Rattle.v_parse.specs.Walking.{kept_part};
ghost use Rattle.v_parse.specs.Parsing.{symbols, TokensGive, TextGives, OneReading};

use crate::walk::tree_part;
use ll_engine::{ParseFail, Tree};
use std::alloc::{AllocError, Global};
use v_lexer::{VToken, lex};
use v_tree::{VDesign, VPart, grammar};

/// The most nesting of expressions, statements and the braces of targets in a text.
pub const NESTING_LIMIT: u32 = 4096;

/// The symbols by which tokens are read, or want of memory.
fn symbols(alloc: Global, tokens: &[VToken]) -> Result<Vec<u16>, AllocError>
    ensures { IfOk result (λ made. made.items ≡ symbols tokens.now) }
{
    let mut made = Vec::with_capacity(alloc, tokens.len())?;
    for token in tokens {
        made.push(token.symbol)?;
    }
    Ok(made)
}

/// The design that a derivation of these tokens means, or want of memory.
fn design(
    alloc: Global,
    tokens: &[VToken],
    symbols: &[u16],
    tree: Tree,
) -> Result<VDesign, AllocError>
    requires { IsReading table symbols.now nesting_limit tree }
    ensures { IfOk result (λ e. kept_part tokens.now tree ≡ P.Text e.modules) }
{
    match tree_part(alloc, tokens, tree)? {
        VPart::Text(modules) => Ok(VDesign { modules }),
        _ => unreachable!(),
    }
}

/// The design that the tokens of a text mean. `NoText` where they mean none, at the token with which no text goes on, the end
/// counted as one behind all others; `Deep` at the token where the nesting of expressions, statements and the braces of
/// targets first passes 4,096, if that comes first.
pub fn parse_tokens(alloc: Global, tokens: &[VToken]) -> Result<VDesign, ParseFail>
    requires { length tokens.now < 2 ^ 32 - 1 }
    ensures { TokensGive tokens.now result }
{
    let symbols = symbols(alloc, tokens)?;
    let reader = grammar(alloc)?;
    match reader.parse(symbols.as_slice(), NESTING_LIMIT) {
        Ok(tree) => Ok(design(alloc, tokens, symbols.as_slice(), tree)?),
        Err(ParseFail::Memory) => Err(ParseFail::Memory),
        Err(ParseFail::NoText { at }) => Err(ParseFail::NoText { at }),
        Err(ParseFail::Deep { at }) => Err(ParseFail::Deep { at }),
    }
}

/// The design that a target text spells (the subset of IEEE 1364-2005 annex A in which texts are written), and why there is
/// none: `NoText` and `Deep` as of `parse_tokens`, by the number of the token.
pub fn parse_text(alloc: Global, bytes: &[u8]) -> Result<VDesign, ParseFail>
    requires { length bytes.now < 2 ^ 32 - 1 }
    ensures { TextGives bytes.now result }
{
    let tokens = lex(alloc, bytes)?;
    parse_tokens(alloc, tokens.as_slice())
}

/// Drops a design. A crate that hands its designs here has no drops of trees of its own to prove.
pub fn discard(_design: VDesign) {}

/// The law that a text spells one design at most, or has one failing token, or one token at which nesting first passes the
/// limit, and no two of these.
#[tactic(auto, using(crate::proofs::OneReading::one_reading))]
pub fn has_one_reading(bytes: &[u8])
    ensures { OneReading bytes.now }
{
    let _bytes = bytes;
}
