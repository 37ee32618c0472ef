//! Types that operators give.

ghost use Rattle.std.specs.Prelude.{◌≡◌, ◌≤◌, IfOk, max};
ghost use Rattle.expr_type.specs.Shapes as shape;
ghost use Rattle.sv_types.specs.Layouts.{width_of};

use std::alloc::{AllocError, Global};
use sv_source::Boxed;
use sv_types::SvType;

/// One four-state bit.
#[tactic(auto, using(crate::proofs::Widths::vectors))]
pub fn one_bit() -> SvType
    ensures value { result ≡ shape.one_bit }
    ensures width { width_of result ≡ 1 }
{
    SvType::Scalar {
        four: true,
        signed: false,
    }
}

/// A four-state vector of so many bits, the most significant one with the largest index.
#[tactic(auto, using(crate::proofs::Widths::vectors))]
pub fn vector(alloc: Global, width: u32, signed: bool) -> Result<SvType, AllocError>
    ensures value { IfOk result (λ t. t ≡ shape.vector width signed) }
    ensures width { IfOk result (λ t. width_of t ≤ max width 2) }
{
    let item = Boxed::new(alloc, one_bit())?;
    Ok(SvType::PackedArray {
        left: i64::from(width) - 1,
        right: 0,
        signed,
        item,
    })
}
