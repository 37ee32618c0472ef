//! What expressions name.

ghost use Rattle.std.specs.Prelude.{◌≡◌, ◌++◌, map, OnOk};
ghost use Rattle.v_meaning.specs.Values.{meaning, sel_meaning, sel_names as names_of_sels, all_names as names_of_all};
ghost use Rattle.v_eval.specs.Scopes.{scope_of, prim_meaning};

use b4_core::Items;
use std::alloc::AllocError;
use v_eval::{Scope, number_of};
use v_tree::{VExpr, VPrim, VSel};

/// Numbers of signals and locals, in the order in which they are named.
pub type Numbers = Items<u64>;

// Adds what a select names.
#[cycle(names)]
#[tactic(auto, using(crate::proofs::Exprs::selects))]
fn sel_names(scope: Scope<'_>, sel: &VSel, to: &mut Numbers) -> Result<(), AllocError>
    ensures { OnOk result (to.new ≡ to.old ++ (sel_meaning sel.now).names (scope_of scope.entry)) }
{
    match sel {
        VSel::Decimal { base: _, extent: _ } => Ok(()),
        VSel::Expr { base, extent: _ } => {
            expr_names(scope, base.get(), to)?;
            Ok(())
        }
    }
}

/// Adds what selects name. Or want of memory.
#[cycle(names)]
pub fn sels_names(scope: Scope<'_>, sels: &[VSel], to: &mut Numbers) -> Result<(), AllocError>
    ensures { OnOk result (to.new ≡ to.old ++ names_of_sels (map sel_meaning sels.now) (scope_of scope.entry)) }
{
    for sel in sels {
        sel_names(scope, sel, to)?;
    }
    Ok(())
}

// Adds what expressions name.
#[cycle(names)]
pub(crate) fn all_names(
    scope: Scope<'_>,
    items: &[VExpr],
    to: &mut Numbers,
) -> Result<(), AllocError>
    ensures { OnOk result (to.new ≡ to.old ++ names_of_all (map meaning items.now) (scope_of scope.entry)) }
{
    for item in items {
        expr_names(scope, item, to)?;
    }
    Ok(())
}

// Adds what an operand names.
#[cycle(names)]
#[tactic(auto, using(crate::proofs::Exprs::operands))]
fn prim_names(scope: Scope<'_>, prim: &VPrim, to: &mut Numbers) -> Result<(), AllocError>
    ensures { OnOk result (to.new ≡ to.old ++ (prim_meaning prim.now).names (scope_of scope.entry)) }
{
    match prim {
        VPrim::Number(_) => Ok(()),
        VPrim::Paren(inner) => {
            expr_names(scope, inner.get(), to)?;
            Ok(())
        }
        VPrim::Name { name, sels } => {
            to.push(number_of(scope.find(name)))?;
            sels_names(scope, sels.as_slice(), to)?;
            Ok(())
        }
        VPrim::Call { function: _, args } => {
            all_names(scope, args.as_slice(), to)?;
            Ok(())
        }
        VPrim::Repeat { count: _, items } => {
            all_names(scope, items.as_slice(), to)?;
            Ok(())
        }
        VPrim::Concat(items) => {
            all_names(scope, items.as_slice(), to)?;
            Ok(())
        }
        VPrim::Sign { signed: _, of } => {
            expr_names(scope, of.get(), to)?;
            Ok(())
        }
    }
}

/// Adds what an expression names: the numbers of its names, from left to right, those in indices among them. Or want of memory.
#[cycle(names)]
#[tactic(auto, using(crate::proofs::Exprs::expressions))]
pub fn expr_names(scope: Scope<'_>, e: &VExpr, to: &mut Numbers) -> Result<(), AllocError>
    ensures { OnOk result (to.new ≡ to.old ++ (meaning e.now).names (scope_of scope.entry)) }
{
    match e {
        VExpr::Prim(a) => {
            prim_names(scope, a, to)?;
            Ok(())
        }
        VExpr::Unary { op: _, of } => {
            prim_names(scope, of, to)?;
            Ok(())
        }
        VExpr::Binary { op: _, left, right } => {
            prim_names(scope, left, to)?;
            prim_names(scope, right, to)?;
            Ok(())
        }
        VExpr::Choose { on, then, other } => {
            prim_names(scope, on, to)?;
            prim_names(scope, then, to)?;
            prim_names(scope, other, to)?;
            Ok(())
        }
    }
}
