//! What the rows of targets and selects mean by what their parts mean (IEEE 1364-2005 A.8.5, A.8.3).
#![tactic(auto, using(crate::proofs::KeptExpressions::kept))]

ghost use Rattle.std.specs.Prelude.{◌≡◌, ℕ, IfOk};
ghost use Rattle.v_tree.specs.Meaning as means;
ghost use Rattle.v_tree.specs.declared.expressions.VExtent.TheVariants.{Down, Up};

use std::alloc::{AllocError, Global};
use sv_source::{Boxed, Items};
use v_parts::{all, first, kinds};
use v_tree::{VExtent, VLval, VPart, VParts, VSel};

/// A name with its selects.
pub fn lvalue(alloc: Global, mut parts: VParts) -> VPart
    ensures { result ≡ means.lvalue_of parts }
{
    let Some(name) = first::<kinds::Name>(&mut parts) else {
        return VPart::Nothing;
    };
    let sels = match first::<kinds::Sels>(&mut parts) {
        Some(sels) => sels,
        None => Items::new(alloc),
    };
    VPart::Lval(VLval::Name { name, sels })
}

/// Targets in braces, or want of memory.
pub fn lvalues(alloc: Global, parts: VParts) -> Result<VPart, AllocError>
    ensures { IfOk result (λ part. part ≡ means.lvalues_of parts) }
{
    let targets = all::<kinds::Lval>(alloc, parts)?;
    Ok(VPart::Lval(VLval::Concat(targets)))
}

/// Selects, or want of memory.
pub fn selects(alloc: Global, parts: VParts) -> Result<VPart, AllocError>
    ensures { IfOk result (λ part. part ≡ means.selects_of parts) }
{
    let sels = all::<kinds::Sel>(alloc, parts)?;
    Ok(VPart::Sels(sels))
}

/// A select by a number, or else by an expression, or want of memory.
pub fn select(alloc: Global, mut parts: VParts) -> Result<VPart, AllocError>
    ensures { IfOk result (λ part. part ≡ means.select_of parts) }
{
    let extent = first::<kinds::Extent>(&mut parts);
    if let Some(base) = first::<kinds::Decimal>(&mut parts) {
        return Ok(VPart::Sel(VSel::Decimal { base, extent }));
    }
    let Some(base) = first::<kinds::Expr>(&mut parts) else {
        return Ok(VPart::Nothing);
    };
    let base = Boxed::new(alloc, base)?;
    Ok(VPart::Sel(VSel::Expr { base, extent }))
}

/// A right bound.
pub fn down(mut parts: VParts) -> VPart
    ensures { result ≡ means.extent_of Down parts }
{
    match first::<kinds::Decimal>(&mut parts) {
        Some(right) => VPart::Extent(VExtent::Down(right)),
        None => VPart::Nothing,
    }
}

/// A width.
pub fn up(mut parts: VParts) -> VPart
    ensures { result ≡ means.extent_of Up parts }
{
    match first::<kinds::Decimal>(&mut parts) {
        Some(width) => VPart::Extent(VExtent::Up(width)),
        None => VPart::Nothing,
    }
}
