//! Dimensions (IEEE 1800-2017 clauses 7.4.1 and 7.4.2).

ghost use Rattle.std.specs.Prelude.{◌≡◌, IfOk};
ghost use Rattle.expr_type.specs.Answers.{Gives, source};
ghost use Rattle.expr_type.specs.Forms as form;
ghost use Rattle.expr_type.specs.KeywordTypes as written;

use expr_type::{Halt, Source};
use std::alloc::{AllocError, Global};
use std::marker::Model;
use sv_source::Boxed;
use sv_types::SvType;
use type_kinds::is_unpacked;

/// A dimension.
#[derive(Drop)]
pub struct Dim {
    /// Its `[`.
    pub opening: u32,
    /// The left bound.
    pub left: i64,
    /// The right bound.
    pub right: i64,
}

impl Model for Dim {
    ghost use Rattle.expr_type.specs.KeywordTypes as written;

    ghost Value = { written.Dim };

    ghost view = { λ d. record { opening = d.opening; left = d.left; right = d.right } };
}

/// A type under packed dimensions, from the outermost one on. The sign is that of the whole.
pub fn packed(alloc: Global, signed: bool, dims: &[Dim], t: SvType) -> Result<SvType, AllocError>
    ensures { IfOk result (λ r. r ≡ written.packed signed dims.now (λ s. t)) }
{
    match dims {
        [] => Ok(t),
        [d, rest @ ..] => {
            let item = packed(alloc, false, rest, t)?;
            Ok(SvType::PackedArray {
                left: d.left,
                right: d.right,
                signed,
                item: Boxed::new(alloc, item)?,
            })
        }
    }
}

/// A named type under packed dimensions, which keeps its own sign.
pub fn named_type(alloc: Global, t: SvType, dims: &[Dim]) -> Result<SvType, AllocError>
    ensures { IfOk result (λ r. r ≡ written.named_type t dims.now) }
{
    packed(alloc, false, dims, t)
}

/// A type under unpacked dimensions, from the outermost one on.
pub fn unpacked(alloc: Global, dims: &[Dim], t: SvType) -> Result<SvType, AllocError>
    ensures { IfOk result (λ r. r ≡ written.unpacked dims.now t) }
{
    match dims {
        [] => Ok(t),
        [d, rest @ ..] => {
            let item = unpacked(alloc, rest, t)?;
            Ok(SvType::UnpackedArray {
                left: d.left,
                right: d.right,
                item: Boxed::new(alloc, item)?,
            })
        }
    }
}

/// A named type under packed dimensions, where it isn't unpacked: that breaks E404 at the first `[`.
pub fn under(alloc: Global, text: Source<'_>, t: SvType, dims: &[Dim]) -> Result<SvType, Halt>
    ensures { Gives result (form.under (source text.entry) t dims.now) }
{
    match dims {
        [] => Ok(t),
        [d, ..] => {
            if is_unpacked(&t) {
                return Err(Halt::Breaks {
                    at: d.opening,
                    rule: 404,
                });
            }
            Ok(named_type(alloc, t, dims)?)
        }
    }
}
