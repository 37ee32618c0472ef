//! Items of patterns by their numbers, and the types of members and elements.

ghost use Rattle.std.specs.Prelude.{◌≡◌, ◌<◌, length, IfOk};
ghost use Rattle.sv_types.specs.Layouts.{count_of};
ghost use Rattle.sv_types.specs.declared.types.SvType.{out-SvType};
ghost use Rattle.pattern_fit.specs.Fits.{is_plain};
ghost use Rattle.expr_type.specs.Patterns.{has_members, rest_by, takes_itself, types_in};
ghost use Rattle.pattern_types.specs.Meaning.{is_default, item_keys, keyed_keys, operand_of, values_of};
ghost use Rattle.pattern_types.specs.Places.{default_from, past, rest_at, is_scalar};
ghost use Rattle.expr_type.specs.Answers.{source};

use crate::operand::{Item, ItemKey, Operand};
use expr_type::Source;
use given_types::copy_type;
use pattern_fit::{Rest, is_same};
use std::alloc::{AllocError, Global};
use sv_types::SvType;

/// Whether it is `default`.
pub fn is_default(key: &ItemKey) -> bool
    ensures { result ≡ is_default key.now }
{
    match key {
        ItemKey::InPlace => false,
        ItemKey::ByDefault => true,
        ItemKey::Named { .. } => false,
        ItemKey::Numbered(_) => false,
    }
}

/// The number of the first item behind `default`.
pub fn default_place(items: &[Item]) -> Option<usize>
    ensures { result ≡ default_from 0 (item_keys items.now) }
{
    for (n, item) in items.iter().enumerate() {
        if is_default(&item.key) {
            return Some(n);
        }
    }
    None
}

/// How many items have another key.
pub fn keyed_count(items: &[Item]) -> usize
    ensures { result ≡ length (keyed_keys (item_keys items.now)) }
{
    let mut n = 0;
    for item in items {
        if !is_default(&item.key) {
            n += 1;
        }
    }
    n
}

/// The number among all items of one that is numbered without the one behind `default`.
pub fn past(default: Option<usize>, n: usize) -> usize
    requires { n < 4294967296 }
    ensures { result ≡ past default n }
{
    match default {
        None => n,
        Some(place) => { if n < place { n } else { n + 1 } }
    }
}

// What stands behind `default`.
#[tactic(auto, using(crate::proofs::Levels::operands))]
fn rest_by(alloc: Global, text: Source<'_>, value: &Operand) -> Result<Rest, AllocError>
    ensures { IfOk result (λ r. r ≡ rest_by (operand_of (source text.entry) value.now)) }
{
    match value {
        Operand::Plain(v) => Ok(Rest::Typed(copy_type(alloc, &v.expr.of)?)),
        Operand::Pattern { .. } => Ok(Rest::Plain),
        Operand::Stream(_) => Ok(Rest::Plain),
    }
}

/// What stands behind `default`, if it is there.
pub fn rest_at(
    alloc: Global,
    text: Source<'_>,
    items: &[Item],
    place: Option<usize>,
) -> Result<Rest, AllocError>
    ensures { IfOk result (λ r. r ≡ rest_at (values_of (source text.entry) items.now) place) }
{
    match place {
        None => Ok(Rest::Absent),
        Some(n) => match sv_source::at(items, n) {
            None => Ok(Rest::Absent),
            Some(item) => rest_by(alloc, text, &item.value),
        },
    }
}

/// Whether a type has members with names.
pub fn has_members(t: &SvType) -> bool
    ensures { result ≡ has_members t.now }
{
    match t {
        SvType::Struct { .. } => true,
        SvType::Union { .. } => true,
        SvType::Scalar { .. } => false,
        SvType::PackedArray { .. } => false,
        SvType::Enum { .. } => false,
        SvType::UnpackedArray { .. } => false,
    }
}

/// How many elements the bounds give.
pub fn count_between(left: i64, right: i64) -> u128
    ensures { result ≡ count_of left right }
{
    (left as i128 - right as i128).unsigned_abs() + 1
}

/// How many members or elements a pattern of a type covers.
#[tactic(auto, using(crate::proofs::Levels::type_levels))]
pub fn place_count(t: &SvType) -> u128
    ensures { result ≡ length (types_in t.now) }
{
    match t {
        SvType::Struct { members, .. } => members.as_slice().len() as u128,
        SvType::PackedArray { left, right, .. } => count_between(*left, *right),
        SvType::UnpackedArray { left, right, .. } => count_between(*left, *right),
        SvType::Union { .. } => 0,
        SvType::Scalar { .. } => 0,
        SvType::Enum { .. } => 0,
    }
}

fn is_scalar(t: &SvType) -> bool
    ensures { result ≡ is_scalar t.now }
{
    match t {
        SvType::Scalar { .. } => true,
        SvType::PackedArray { .. } => false,
        SvType::Struct { .. } => false,
        SvType::Union { .. } => false,
        SvType::Enum { .. } => false,
        SvType::UnpackedArray { .. } => false,
    }
}

// Whether a type takes the value of `default` itself, whatever the value's type is.
fn takes_plainly(t: &SvType) -> bool
    ensures { result ≡ is_plain (out-SvType t.now) }
{
    match t {
        SvType::Scalar { .. } => true,
        SvType::PackedArray { item, .. } => is_scalar(item.get()),
        SvType::Struct { .. } => false,
        SvType::Union { .. } => true,
        SvType::Enum { .. } => true,
        SvType::UnpackedArray { .. } => false,
    }
}

/// Whether a type takes the value of `default` itself, and not what a pattern of it would give to its members or elements.
pub fn takes_itself(rest: &Rest, t: &SvType) -> bool
    ensures { result ≡ takes_itself rest.now t.now }
{
    match rest {
        Rest::Absent => true,
        Rest::Plain => takes_plainly(t),
        Rest::Typed(of) => takes_plainly(t) || is_same(t, of),
    }
}
