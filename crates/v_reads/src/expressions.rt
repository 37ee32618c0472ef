//! What expressions read.

ghost use Rattle.std.specs.Prelude.{map, OnOk};
ghost use Rattle.v_meaning.specs.Values.{meaning, sel_meaning, sel_reads as reads_of_sels, all_reads as reads_of_all};
ghost use Rattle.v_eval.specs.Scopes.{scope_of, prim_meaning, callee_at};
ghost use Rattle.v_reads.specs.Reads.{Adds, FunctionsRead};

use crate::numbers::{Numbers, add_all};
use std::alloc::AllocError;
use sv_source::at;
use v_eval::{Scope, number_of};
use v_tree::{VExpr, VPrim, VSel};

// Adds what the function at an item reads.
#[tactic(auto, using(crate::proofs::Called::called))]
fn callee_reads(
    scope: Scope<'_>,
    functions: &[Numbers],
    function: Option<usize>,
    to: &mut Numbers,
) -> Result<(), AllocError>
    requires { FunctionsRead scope functions.now }
    ensures { OnOk result (Adds to.old to.new (callee_at scope.entry function).reads) }
{
    match function {
        None => Ok(()),
        Some(i) => match at(functions, i) {
            None => Ok(()),
            Some(numbers) => {
                add_all(numbers.as_slice(), to)?;
                Ok(())
            }
        },
    }
}

// Adds what a select reads.
#[cycle(reads)]
#[tactic(auto, using(crate::proofs::Exprs::selects))]
fn sel_reads(
    scope: Scope<'_>,
    functions: &[Numbers],
    sel: &VSel,
    to: &mut Numbers,
) -> Result<(), AllocError>
    requires { FunctionsRead scope functions.now }
    ensures { OnOk result (Adds to.old to.new ((sel_meaning sel.now).reads (scope_of scope.entry))) }
{
    match sel {
        VSel::Decimal { base: _, extent: _ } => Ok(()),
        VSel::Expr { base, extent: _ } => {
            expr_reads(scope, functions, base.get(), to)?;
            Ok(())
        }
    }
}

/// Adds what the indices of selects read. `functions` has for each item of the module what the function there reads. Or want of
/// memory.
#[cycle(reads)]
pub fn sels_reads(
    scope: Scope<'_>,
    functions: &[Numbers],
    sels: &[VSel],
    to: &mut Numbers,
) -> Result<(), AllocError>
    requires { FunctionsRead scope functions.now }
    ensures { OnOk result (Adds to.old to.new (reads_of_sels (map sel_meaning sels.now) (scope_of scope.entry))) }
{
    for sel in sels {
        sel_reads(scope, functions, sel, to)?;
    }
    Ok(())
}

// Adds what expressions read.
#[cycle(reads)]
pub(crate) fn all_reads(
    scope: Scope<'_>,
    functions: &[Numbers],
    items: &[VExpr],
    to: &mut Numbers,
) -> Result<(), AllocError>
    requires { FunctionsRead scope functions.now }
    ensures { OnOk result (Adds to.old to.new (reads_of_all (map meaning items.now) (scope_of scope.entry))) }
{
    for item in items {
        expr_reads(scope, functions, item, to)?;
    }
    Ok(())
}

// Adds what an operand reads.
#[cycle(reads)]
#[tactic(auto, using(crate::proofs::Exprs::operands))]
fn prim_reads(
    scope: Scope<'_>,
    functions: &[Numbers],
    prim: &VPrim,
    to: &mut Numbers,
) -> Result<(), AllocError>
    requires { FunctionsRead scope functions.now }
    ensures { OnOk result (Adds to.old to.new ((prim_meaning prim.now).reads (scope_of scope.entry))) }
{
    match prim {
        VPrim::Number(_) => Ok(()),
        VPrim::Paren(inner) => {
            expr_reads(scope, functions, inner.get(), to)?;
            Ok(())
        }
        VPrim::Name { name, sels } => {
            to.push(number_of(scope.find(name)))?;
            sels_reads(scope, functions, sels.as_slice(), to)?;
            Ok(())
        }
        VPrim::Call { function, args } => {
            all_reads(scope, functions, args.as_slice(), to)?;
            callee_reads(scope, functions, scope.function(function), to)?;
            Ok(())
        }
        VPrim::Repeat { count: _, items } => {
            all_reads(scope, functions, items.as_slice(), to)?;
            Ok(())
        }
        VPrim::Concat(items) => {
            all_reads(scope, functions, items.as_slice(), to)?;
            Ok(())
        }
        VPrim::Sign { signed: _, of } => {
            expr_reads(scope, functions, of.get(), to)?;
            Ok(())
        }
    }
}

/// Adds what an expression reads: its names, those in indices among them, and the signals that the functions read which it calls.
/// `functions` has for each item of the module what the function there reads. Or want of memory.
#[cycle(reads)]
#[tactic(auto, using(crate::proofs::Exprs::expressions))]
pub fn expr_reads(
    scope: Scope<'_>,
    functions: &[Numbers],
    e: &VExpr,
    to: &mut Numbers,
) -> Result<(), AllocError>
    requires { FunctionsRead scope functions.now }
    ensures { OnOk result (Adds to.old to.new ((meaning e.now).reads (scope_of scope.entry))) }
{
    match e {
        VExpr::Prim(a) => {
            prim_reads(scope, functions, a, to)?;
            Ok(())
        }
        VExpr::Unary { op: _, of } => {
            prim_reads(scope, functions, of, to)?;
            Ok(())
        }
        VExpr::Binary { op: _, left, right } => {
            prim_reads(scope, functions, left, to)?;
            prim_reads(scope, functions, right, to)?;
            Ok(())
        }
        VExpr::Choose { on, then, other } => {
            prim_reads(scope, functions, on, to)?;
            prim_reads(scope, functions, then, to)?;
            prim_reads(scope, functions, other, to)?;
            Ok(())
        }
    }
}
