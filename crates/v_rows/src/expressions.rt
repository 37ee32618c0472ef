//! What the rows of expressions mean by what their parts mean (IEEE 1364-2005 A.8.3, A.8.4).
#![tactic(auto, using(crate::proofs::KeptExpressions::kept))]

ghost use Rattle.std.specs.Prelude.{◌≡◌, IfOk};
ghost use Rattle.v_tree.specs.Meaning as means;

use std::alloc::{AllocError, Global};
use sv_source::{Boxed, Items};
use v_parts::{all, first, kinds};
use v_tree::{VExpr, VPart, VParts, VPrim};

/// An operand, and what may stand behind it: an operator with its right operand, or the values of `? :`.
pub fn expression(mut parts: VParts) -> VPart
    ensures { result ≡ means.expression_of parts }
{
    let Some(left) = first::<kinds::Prim>(&mut parts) else {
        return VPart::Nothing;
    };
    if let Some((op, right)) = first::<kinds::Right>(&mut parts) {
        return VPart::Expr(VExpr::Binary { op, left, right });
    }
    if let Some((then, other)) = first::<kinds::Arms>(&mut parts) {
        return VPart::Expr(VExpr::Choose {
            on: left,
            then,
            other,
        });
    }
    VPart::Expr(VExpr::Prim(left))
}

/// An operator before its operand.
pub fn unary(mut parts: VParts) -> VPart
    ensures { result ≡ means.unary_of parts }
{
    let Some(op) = first::<kinds::UnaryOp>(&mut parts) else {
        return VPart::Nothing;
    };
    let Some(of) = first::<kinds::Prim>(&mut parts) else {
        return VPart::Nothing;
    };
    VPart::Expr(VExpr::Unary { op, of })
}

/// A binary operator and its right operand.
pub fn right(mut parts: VParts) -> VPart
    ensures { result ≡ means.right_of parts }
{
    let Some(op) = first::<kinds::BinaryOp>(&mut parts) else {
        return VPart::Nothing;
    };
    let Some(right) = first::<kinds::Prim>(&mut parts) else {
        return VPart::Nothing;
    };
    VPart::Right(op, right)
}

/// The two values of `? :`.
pub fn arms(mut parts: VParts) -> VPart
    ensures { result ≡ means.arms_of parts }
{
    let Some(then) = first::<kinds::Prim>(&mut parts) else {
        return VPart::Nothing;
    };
    let Some(other) = first::<kinds::Prim>(&mut parts) else {
        return VPart::Nothing;
    };
    VPart::Arms(then, other)
}

/// A number.
pub fn number(mut parts: VParts) -> VPart
    ensures { result ≡ means.number_of parts }
{
    let Some(bits) = first::<kinds::Number>(&mut parts) else {
        return VPart::Nothing;
    };
    VPart::Prim(VPrim::Number(bits))
}

/// An expression in parentheses, or want of memory.
pub fn paren(alloc: Global, mut parts: VParts) -> Result<VPart, AllocError>
    ensures { IfOk result (λ part. part ≡ means.paren_of parts) }
{
    let Some(inner) = first::<kinds::Expr>(&mut parts) else {
        return Ok(VPart::Nothing);
    };
    let inner = Boxed::new(alloc, inner)?;
    Ok(VPart::Prim(VPrim::Paren(inner)))
}

/// A name, and what may stand behind it: the arguments of a call, or selects.
pub fn name(alloc: Global, mut parts: VParts) -> VPart
    ensures { result ≡ means.name_of parts }
{
    let Some(name) = first::<kinds::Name>(&mut parts) else {
        return VPart::Nothing;
    };
    if let Some(args) = first::<kinds::Args>(&mut parts) {
        return VPart::Prim(VPrim::Call {
            function: name,
            args,
        });
    }
    let sels = match first::<kinds::Sels>(&mut parts) {
        Some(sels) => sels,
        None => Items::new(alloc),
    };
    VPart::Prim(VPrim::Name { name, sels })
}

/// `$signed(of)` or `$unsigned(of)`, or want of memory.
pub fn sign(alloc: Global, mut parts: VParts) -> Result<VPart, AllocError>
    ensures { IfOk result (λ part. part ≡ means.sign_of parts) }
{
    let Some(signed) = first::<kinds::Sign>(&mut parts) else {
        return Ok(VPart::Nothing);
    };
    let Some(of) = first::<kinds::Expr>(&mut parts) else {
        return Ok(VPart::Nothing);
    };
    let of = Boxed::new(alloc, of)?;
    Ok(VPart::Prim(VPrim::Sign { signed, of }))
}

/// The arguments of a call, or want of memory.
pub fn arguments(alloc: Global, parts: VParts) -> Result<VPart, AllocError>
    ensures { IfOk result (λ part. part ≡ means.arguments_of parts) }
{
    let args = all::<kinds::Expr>(alloc, parts)?;
    Ok(VPart::Args(args))
}

/// `{count{items}}`, or want of memory.
pub fn repeat(alloc: Global, mut parts: VParts) -> Result<VPart, AllocError>
    ensures { IfOk result (λ part. part ≡ means.repeat_of parts) }
{
    let Some(count) = first::<kinds::Decimal>(&mut parts) else {
        return Ok(VPart::Nothing);
    };
    let items = all::<kinds::Expr>(alloc, parts)?;
    Ok(VPart::Prim(VPrim::Repeat { count, items }))
}

/// `{items}`, or want of memory.
pub fn concat(alloc: Global, parts: VParts) -> Result<VPart, AllocError>
    ensures { IfOk result (λ part. part ≡ means.concat_of parts) }
{
    let items = all::<kinds::Expr>(alloc, parts)?;
    Ok(VPart::Prim(VPrim::Concat(items)))
}
