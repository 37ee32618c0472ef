//! The calls in an expression and in a target.

ghost use Rattle.std.specs.Prelude.{◌≡◌, map, OnOk};
ghost use Rattle.v_expr_rules.specs.Seen.{extent_tokens};
ghost use Rattle.v_scopes.specs.Env.{found};
ghost use Rattle.v_functions.specs.Numbered.{numbers_in};
ghost use Rattle.v_functions.specs.Walks as means;

use crate::table::Functions;
use crate::walk::Walk;
use std::alloc::AllocError;
use v_scopes::Scope;
use v_tree::{VExpr, VExtent, VLval, VPrim, VSel};

// How many tokens stand behind the base of a select.
fn extent_tokens(extent: Option<VExtent>) -> u32
    ensures { result ≡ extent_tokens extent }
{
    match extent {
        None => 0,
        Some(_) => 2,
    }
}

// A select.
#[cycle(expression)]
fn sel_walked(
    functions: &Functions,
    scope: &Scope,
    sel: &VSel,
    walk: &mut Walk,
) -> Result<(), AllocError>
    ensures { OnOk result (walk.new ≡ means.sel_walked sel.now (numbers_in functions.now) (found scope.now) walk.old) }
{
    match sel {
        VSel::Decimal { base: _, extent } => {
            walk.skip(3 + extent_tokens(*extent));
            Ok(())
        }
        VSel::Expr { base, extent } => {
            walk.skip(1);
            expr_walked(functions, scope, base.get(), walk)?;
            walk.skip(1 + extent_tokens(*extent));
            Ok(())
        }
    }
}

// The selects of a name.
#[cycle(expression)]
fn sels_walked(
    functions: &Functions,
    scope: &Scope,
    sels: &[VSel],
    walk: &mut Walk,
) -> Result<(), AllocError>
    ensures { OnOk result (walk.new ≡ means.each_walked (map means.sel_walked sels.now) (numbers_in functions.now) (found scope.now) walk.old) }
{
    for sel in sels {
        sel_walked(functions, scope, sel, walk)?;
    }
    Ok(())
}

/// Adds the calls in expressions with commas between. Or want of memory.
#[cycle(expression)]
pub fn list_walked(
    functions: &Functions,
    scope: &Scope,
    exprs: &[VExpr],
    walk: &mut Walk,
) -> Result<(), AllocError>
    ensures { OnOk result (walk.new ≡ means.listed_walked 0 (map means.expr_walked exprs.now) (numbers_in functions.now) (found scope.now) walk.old) }
{
    for i in 0..exprs.len() {
        walk.skip_comma(i);
        expr_walked(functions, scope, &exprs[i], walk)?;
    }
    Ok(())
}

// An operand.
#[cycle(expression)]
fn prim_walked(
    functions: &Functions,
    scope: &Scope,
    prim: &VPrim,
    walk: &mut Walk,
) -> Result<(), AllocError>
    ensures { OnOk result (walk.new ≡ means.prim_walked prim.now (numbers_in functions.now) (found scope.now) walk.old) }
{
    match prim {
        VPrim::Number(_) => {
            walk.skip(1);
            Ok(())
        }
        VPrim::Paren(inner) => {
            walk.skip(1);
            expr_walked(functions, scope, inner.get(), walk)?;
            walk.skip(1);
            Ok(())
        }
        VPrim::Name { name: _, sels } => {
            walk.skip(1);
            sels_walked(functions, scope, sels.as_slice(), walk)
        }
        VPrim::Call { function, args } => {
            walk.call(functions, scope, function)?;
            walk.skip(2);
            list_walked(functions, scope, args.as_slice(), walk)?;
            walk.skip(1);
            Ok(())
        }
        VPrim::Repeat { count: _, items } => {
            walk.skip(3);
            list_walked(functions, scope, items.as_slice(), walk)?;
            walk.skip(2);
            Ok(())
        }
        VPrim::Concat(items) => {
            walk.skip(1);
            list_walked(functions, scope, items.as_slice(), walk)?;
            walk.skip(1);
            Ok(())
        }
        VPrim::Sign { signed: _, of } => {
            walk.skip(2);
            expr_walked(functions, scope, of.get(), walk)?;
            walk.skip(1);
            Ok(())
        }
    }
}

/// Adds the calls in an expression, which begins at the next token. Or want of memory.
#[cycle(expression)]
pub fn expr_walked(
    functions: &Functions,
    scope: &Scope,
    expr: &VExpr,
    walk: &mut Walk,
) -> Result<(), AllocError>
    ensures { OnOk result (walk.new ≡ means.expr_walked expr.now (numbers_in functions.now) (found scope.now) walk.old) }
{
    match expr {
        VExpr::Prim(a) => prim_walked(functions, scope, a, walk),
        VExpr::Unary { op: _, of } => {
            walk.skip(1);
            prim_walked(functions, scope, of, walk)
        }
        VExpr::Binary { op: _, left, right } => {
            prim_walked(functions, scope, left, walk)?;
            walk.skip(1);
            prim_walked(functions, scope, right, walk)
        }
        VExpr::Choose { on, then, other } => {
            prim_walked(functions, scope, on, walk)?;
            walk.skip(1);
            prim_walked(functions, scope, then, walk)?;
            walk.skip(1);
            prim_walked(functions, scope, other, walk)
        }
    }
}

// The parts of a concatenation.
#[cycle(target)]
fn parts_walked(
    functions: &Functions,
    scope: &Scope,
    parts: &[VLval],
    walk: &mut Walk,
) -> Result<(), AllocError>
    ensures { OnOk result (walk.new ≡ means.listed_walked 0 (map means.target_walked parts.now) (numbers_in functions.now) (found scope.now) walk.old) }
{
    for i in 0..parts.len() {
        walk.skip_comma(i);
        target_walked(functions, scope, &parts[i], walk)?;
    }
    Ok(())
}

/// Adds the calls in a target, which begins at the next token. Or want of memory.
#[cycle(target)]
pub fn target_walked(
    functions: &Functions,
    scope: &Scope,
    target: &VLval,
    walk: &mut Walk,
) -> Result<(), AllocError>
    ensures { OnOk result (walk.new ≡ means.target_walked target.now (numbers_in functions.now) (found scope.now) walk.old) }
{
    match target {
        VLval::Name { name: _, sels } => {
            walk.skip(1);
            sels_walked(functions, scope, sels.as_slice(), walk)
        }
        VLval::Concat(parts) => {
            walk.skip(1);
            parts_walked(functions, scope, parts.as_slice(), walk)?;
            walk.skip(1);
            Ok(())
        }
    }
}
