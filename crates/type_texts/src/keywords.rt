//! Types that one word names, or none (IEEE 1800-2017 clauses 6.8 and 6.11).

ghost use Rattle.std.specs.Prelude.{◌≡◌, Some, None, false, true, IfOk};
ghost use Rattle.expr_type.specs.KeywordTypes as written;

use crate::dimensions::{Dim, packed};
use std::alloc::{AllocError, Global};
use sv_source::Boxed;
use sv_tree::{KeywordType, Signing, TypeKeyword};
use sv_types::SvType;

// What a word says of bits: whether they are four-state, how many they are, if it isn't one, and whether they are signed.
#[derive(Clone, Copy)]
struct Word {
    four: bool,
    bits: Option<u32>,
    signed: bool,
}

fn one_bit(four: bool) -> Word
    ensures four { result.four ≡ four }
    ensures bits { result.bits ≡ None }
    ensures signed { result.signed ≡ false }
{
    Word {
        four,
        bits: None,
        signed: false,
    }
}

fn number(four: bool, bits: u32) -> Word
    ensures four { result.four ≡ four }
    ensures bits { result.bits ≡ Some bits }
    ensures signed { result.signed ≡ true }
{
    Word {
        four,
        bits: Some(bits),
        signed: true,
    }
}

fn word_of(keyword: TypeKeyword) -> Word
    ensures four { result.four ≡ (written.word_of keyword).four }
    ensures bits { result.bits ≡ (written.word_of keyword).bits }
    ensures signed { result.signed ≡ (written.word_of keyword).signed }
{
    match keyword {
        TypeKeyword::Bit => one_bit(false),
        TypeKeyword::Logic => one_bit(true),
        TypeKeyword::Reg => one_bit(true),
        TypeKeyword::Byte => number(false, 8),
        TypeKeyword::Shortint => number(false, 16),
        TypeKeyword::Int => number(false, 32),
        TypeKeyword::Longint => number(false, 64),
        TypeKeyword::Integer => number(true, 32),
    }
}

// The sign that is written, or another one.
fn signed_by(other: bool, signing: Option<Signing>) -> bool
    ensures { result ≡ written.signed_by other signing }
{
    match signing {
        None => other,
        Some(Signing::Signed(_)) => true,
        Some(Signing::Unsigned(_)) => false,
    }
}

// The type of a word alone.
fn plain(alloc: Global, four: bool, bits: Option<u32>, signed: bool) -> Result<SvType, AllocError>
    ensures { IfOk result (λ t. t ≡ written.plain four bits signed) }
{
    match bits {
        None => Ok(SvType::Scalar { four, signed }),
        Some(count) => {
            let bit = SvType::Scalar {
                four,
                signed: false,
            };
            Ok(SvType::PackedArray {
                left: i64::from(count) - 1,
                right: 0,
                signed,
                item: Boxed::new(alloc, bit)?,
            })
        }
    }
}

// Bits under dimensions. An element is unsigned.
fn bits_under(
    alloc: Global,
    four: bool,
    bits: Option<u32>,
    signed: bool,
    dims: &[Dim],
) -> Result<SvType, AllocError>
    ensures { IfOk result (λ t. t ≡ written.packed signed dims.now (written.plain four bits)) }
{
    match dims {
        [] => plain(alloc, four, bits, signed),
        [_, ..] => {
            let element = plain(alloc, four, bits, false)?;
            packed(alloc, signed, dims, element)
        }
    }
}

/// The type of a word with packed dimensions (clause 6.11).
pub fn keyword_type(alloc: Global, of: KeywordType, dims: &[Dim]) -> Result<SvType, AllocError>
    ensures { IfOk result (λ t. t ≡ written.keyword_type of dims.now) }
{
    let word = word_of(of.keyword);
    let signed = signed_by(word.signed, of.signing);
    bits_under(alloc, word.four, word.bits, signed, dims)
}

/// The type of what has no written type, but for a sign and packed dimensions: four-state bits.
pub fn implicit_type(
    alloc: Global,
    signing: Option<Signing>,
    dims: &[Dim],
) -> Result<SvType, AllocError>
    ensures { IfOk result (λ t. t ≡ written.implicit_type signing dims.now) }
{
    bits_under(alloc, true, None, signed_by(false, signing), dims)
}
