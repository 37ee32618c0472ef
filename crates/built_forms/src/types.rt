//! The built forms of types.

ghost use Rattle.std.specs.Prelude.{◌≡◌, ◌&&◌, is_none, IfOk};
ghost use Rattle.built_forms.specs.Built as means;

use crate::forms::Range;
use crate::words::spot;
use std::alloc::{AllocError, Global};
use sv_source::{Spot, Token};
use sv_tree::{Dimension, KeywordType, TypeKeyword, TypeText};

/// A decimal number.
fn decimal(
    alloc: Global,
    tokens: &[Token],
    expr: &sv_tree::Expr,
) -> Result<Option<Spot>, AllocError>
    ensures { IfOk result (λ s. s ≡ means.decimal_of tokens.now expr.now) }
{
    match expr {
        sv_tree::Expr::Decimal { digits } => spot(alloc, tokens, *digits),
        _ => Ok(None),
    }
}

/// Decimal bounds.
fn bounds(
    alloc: Global,
    tokens: &[Token],
    left: &sv_tree::Expr,
    right: &sv_tree::Expr,
) -> Result<Option<Option<Range>>, AllocError>
    ensures { IfOk result (λ r. r ≡ means.bounds_of tokens.now left.now right.now) }
{
    let Some(left) = decimal(alloc, tokens, left)? else {
        return Ok(None);
    };
    let Some(right) = decimal(alloc, tokens, right)? else {
        return Ok(None);
    };
    Ok(Some(Some(Range { left, right })))
}

/// A dimension with decimal bounds.
fn dimension_bounds(
    alloc: Global,
    tokens: &[Token],
    dimension: &Dimension,
) -> Result<Option<Option<Range>>, AllocError>
    ensures { IfOk result (λ r. r ≡ means.dimension_of tokens.now dimension.now) }
{
    match dimension {
        Dimension::Size { .. } => Ok(None),
        Dimension::Range { left, right, .. } => bounds(alloc, tokens, left, right),
    }
}

/// At most one dimension, with decimal bounds.
fn range(
    alloc: Global,
    tokens: &[Token],
    packed: &[Dimension],
) -> Result<Option<Option<Range>>, AllocError>
    ensures { IfOk result (λ r. r ≡ means.range_of tokens.now packed.now) }
{
    match packed {
        [] => Ok(Some(None)),
        [dimension] => dimension_bounds(alloc, tokens, dimension),
        [_, _, ..] => Ok(None),
    }
}

/// Whether a type is `logic` without a sign.
fn is_plain_logic(of: &KeywordType) -> bool
    ensures { result ≡ (means.is_logic of.now.keyword && is_none of.now.signing) }
{
    let is_logic = match of.keyword {
        TypeKeyword::Logic => true,
        _ => false,
    };
    is_logic && of.signing.is_none()
}

/// `logic`, with at most one dimension.
fn keyword_range(
    alloc: Global,
    tokens: &[Token],
    of: &KeywordType,
    packed: &[Dimension],
) -> Result<Option<Option<Range>>, AllocError>
    ensures { IfOk result (λ r. r ≡ means.logic_range tokens.now of.now packed.now) }
{
    if is_plain_logic(of) {
        range(alloc, tokens, packed)
    } else {
        Ok(None)
    }
}

/// A type of a built form: its dimension, if it has one.
pub fn logic_range(
    alloc: Global,
    tokens: &[Token],
    of: &TypeText,
) -> Result<Option<Option<Range>>, AllocError>
    ensures { IfOk result (λ r. r ≡ means.type_of tokens.now of.now) }
{
    match of {
        TypeText::Keyword { of, packed } => keyword_range(alloc, tokens, of, packed.as_slice()),
        _ => Ok(None),
    }
}
