//! Copies of expressions: an index stands in a guard and in an offset.

ghost use Rattle.std.specs.Prelude.{◌≡◌, IfOk};

use b4_core::Vec4;
use std::alloc::{AllocError, Global};
use sv_source::Boxed;
use v_tree::{VExpr, VExprs, VPrim, VSel, VSels};

/// A select.
#[cycle(copy)]
fn copy_sel(alloc: Global, sel: &VSel) -> Result<VSel, AllocError>
    ensures { IfOk result (λ c. c ≡ sel.now) }
{
    match sel {
        VSel::Decimal { base, extent } => Ok(VSel::Decimal {
            base: *base,
            extent: *extent,
        }),
        VSel::Expr { base, extent } => {
            let copy = copy_expr(alloc, base.get())?;
            let base = Boxed::new(alloc, copy)?;
            Ok(VSel::Expr {
                base,
                extent: *extent,
            })
        }
    }
}

/// Selects.
#[cycle(copy)]
fn copy_sels(alloc: Global, sels: &[VSel]) -> Result<VSels, AllocError>
    ensures { IfOk result (λ c. c ≡ sels.now) }
{
    let mut made = VSels::new(alloc);
    for sel in sels {
        made.push(copy_sel(alloc, sel)?)?;
    }
    Ok(made)
}

/// Expressions.
#[cycle(copy)]
fn copy_exprs(alloc: Global, exprs: &[VExpr]) -> Result<VExprs, AllocError>
    ensures { IfOk result (λ c. c ≡ exprs.now) }
{
    let mut made = VExprs::new(alloc);
    for expr in exprs {
        made.push(copy_expr(alloc, expr)?)?;
    }
    Ok(made)
}

/// An expression in a box.
#[cycle(copy)]
fn copy_boxed(alloc: Global, expr: &VExpr) -> Result<Boxed<VExpr>, AllocError>
    ensures { IfOk result (λ c. c ≡ expr.now) }
{
    let copy = copy_expr(alloc, expr)?;
    Boxed::new(alloc, copy)
}

/// An operand.
#[cycle(copy)]
fn copy_prim(alloc: Global, prim: &VPrim) -> Result<VPrim, AllocError>
    ensures { IfOk result (λ c. c ≡ prim.now) }
{
    match prim {
        VPrim::Number(bits) => Ok(VPrim::Number(Vec4::from_slice(alloc, bits.as_slice())?)),
        VPrim::Paren(inner) => Ok(VPrim::Paren(copy_boxed(alloc, inner.get())?)),
        VPrim::Name { name, sels } => {
            let sels = copy_sels(alloc, sels.as_slice())?;
            let name = name.copy(alloc)?;
            Ok(VPrim::Name { name, sels })
        }
        VPrim::Call { function, args } => {
            let args = copy_exprs(alloc, args.as_slice())?;
            let function = function.copy(alloc)?;
            Ok(VPrim::Call { function, args })
        }
        VPrim::Repeat { count, items } => Ok(VPrim::Repeat {
            count: *count,
            items: copy_exprs(alloc, items.as_slice())?,
        }),
        VPrim::Concat(items) => Ok(VPrim::Concat(copy_exprs(alloc, items.as_slice())?)),
        VPrim::Sign { signed, of } => Ok(VPrim::Sign {
            signed: *signed,
            of: copy_boxed(alloc, of.get())?,
        }),
    }
}

/// Both arms of a choice.
#[derive(Drop)]
struct Arms {
    then: VPrim,
    other: VPrim,
}

/// A choice of these arms.
fn choice(on: VPrim, arms: Arms) -> VExpr
    ensures { result ≡ VExpr.Choose on arms.then arms.other }
{
    VExpr::Choose {
        on,
        then: arms.then,
        other: arms.other,
    }
}

/// A copy of an expression, or want of memory.
#[cycle(copy)]
pub fn copy_expr(alloc: Global, expr: &VExpr) -> Result<VExpr, AllocError>
    ensures { IfOk result (λ c. c ≡ expr.now) }
{
    match expr {
        VExpr::Prim(prim) => Ok(VExpr::Prim(copy_prim(alloc, prim)?)),
        VExpr::Unary { op, of } => Ok(VExpr::Unary {
            op: *op,
            of: copy_prim(alloc, of)?,
        }),
        VExpr::Binary { op, left, right } => {
            let left = copy_prim(alloc, left);
            let (left, right) = pairs::both(left, copy_prim(alloc, right))?;
            Ok(VExpr::Binary {
                op: *op,
                left,
                right,
            })
        }
        VExpr::Choose { on, then, other } => {
            let then = copy_prim(alloc, then);
            let (then, other) = pairs::both(then, copy_prim(alloc, other))?;
            let arms = Arms { then, other };
            let on = copy_prim(alloc, on);
            let (on, arms) = pairs::both(on, Ok(arms))?;
            Ok(choice(on, arms))
        }
    }
}
