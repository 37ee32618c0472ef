//! Expressions that outputs are connected to (IEEE 1364-2005 clause 12.3.9).

ghost use Rattle.std.specs.Prelude.{◌≡◌, true, map, IfOk};
ghost use Rattle.std.specs.List.{list_all};
ghost use Rattle.v_meaning.specs.Modules.{as_target, all_some, over};
ghost use Rattle.v_meaning.specs.Statements.{target};
ghost use Rattle.v_meaning.specs.Values.{sel_meaning};
ghost use Rattle.v_processes.specs.Connected.{connected_of_prim, connected_of_sel, if_some};
ghost use Rattle.v_processes.specs.Stems.{is_decimal, is_decimal_sel};

use std::alloc::{AllocError, Global};
use v_tree::{VExpr, VLval, VLvals, VPrim, VSel, VSels};

// The same select, if its base is a decimal number.
#[tactic(auto, using(crate::proofs::Connecting::selects))]
fn sel_of(sel: &VSel) -> Option<VSel>
    ensures means { over sel_meaning result ≡ connected_of_sel sel.now }
    ensures decimal { if_some is_decimal_sel result ≡ true }
{
    match sel {
        VSel::Decimal { base, extent } => Some(VSel::Decimal {
            base: *base,
            extent: *extent,
        }),
        VSel::Expr { base: _, extent: _ } => None,
    }
}

// The same selects, if their bases are decimal numbers.
fn sels_of(alloc: Global, sels: &[VSel]) -> Result<Option<VSels>, AllocError>
    ensures means { IfOk result (λ r. over (map sel_meaning) r ≡ all_some (map connected_of_sel sels.now)) }
    ensures decimal { IfOk result (λ r. if_some (list_all is_decimal_sel) r ≡ true) }
{
    let mut made = VSels::new(alloc);
    for sel in sels {
        match sel_of(sel) {
            None => return Ok(None),
            Some(sel) => made.push(sel)?,
        }
    }
    Ok(Some(made))
}

// Operands that are targets side by side.
#[cycle(connected)]
fn lvals_of(alloc: Global, items: &[VExpr]) -> Result<Option<VLvals>, AllocError>
    ensures means { IfOk result (λ r. over (map target) r ≡ all_some (map as_target items.now)) }
    ensures decimal { IfOk result (λ r. if_some (list_all is_decimal) r ≡ true) }
{
    let mut made = VLvals::new(alloc);
    for item in items {
        match lval_of(alloc, item)? {
            None => return Ok(None),
            Some(lval) => made.push(lval)?,
        }
    }
    Ok(Some(made))
}

// An operand as a target, if it is one.
#[cycle(connected)]
#[tactic(auto, using(crate::proofs::Connecting::operands))]
fn prim_lval(alloc: Global, prim: &VPrim) -> Result<Option<VLval>, AllocError>
    ensures means { IfOk result (λ r. over target r ≡ connected_of_prim prim.now) }
    ensures decimal { IfOk result (λ r. if_some is_decimal r ≡ true) }
{
    match prim {
        VPrim::Number(_) => Ok(None),
        VPrim::Paren(_) => Ok(None),
        VPrim::Name { name, sels } => match sels_of(alloc, sels.as_slice())? {
            None => Ok(None),
            Some(sels) => Ok(Some(VLval::Name {
                name: name.copy(alloc)?,
                sels,
            })),
        },
        VPrim::Call {
            function: _,
            args: _,
        } => Ok(None),
        VPrim::Repeat { count: _, items: _ } => Ok(None),
        VPrim::Concat(items) => match lvals_of(alloc, items.as_slice())? {
            None => Ok(None),
            Some(parts) => Ok(Some(VLval::Concat(parts))),
        },
        VPrim::Sign { signed: _, of: _ } => Ok(None),
    }
}

/// What an output drives that is connected to this expression: a name with decimal selects, or a concatenation of such, as a
/// target. Nothing for any other expression. Or want of memory.
#[cycle(connected)]
#[tactic(auto, using(crate::proofs::Connecting::expressions))]
pub fn lval_of(alloc: Global, e: &VExpr) -> Result<Option<VLval>, AllocError>
    ensures means { IfOk result (λ r. over target r ≡ as_target e.now) }
    ensures decimal { IfOk result (λ r. if_some is_decimal r ≡ true) }
{
    match e {
        VExpr::Prim(a) => prim_lval(alloc, a),
        VExpr::Unary { op: _, of: _ } => Ok(None),
        VExpr::Binary {
            op: _,
            left: _,
            right: _,
        } => Ok(None),
        VExpr::Choose {
            on: _,
            then: _,
            other: _,
        } => Ok(None),
    }
}
