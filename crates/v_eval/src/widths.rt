//! Widths and signs of expressions alone (IEEE 1364-2005 clause 5.4 and table 5-22).

ghost use Rattle.std.specs.Prelude.{◌≡◌, ◌+◌, ◌*◌, false, ℤ, Option, map, IfOk};
ghost use Rattle.v_meaning.specs.Scopes.{bits_of_range as range_bits};
ghost use Rattle.v_meaning.specs.Selects as paths;
ghost use Rattle.v_meaning.specs.Values.{meaning, sel_meaning, width_of, joined_width};
ghost use Rattle.v_eval.specs.Limits.{limits, limits_of_prim, limits_of_sel, joined_wide, SelLimits};
ghost use Rattle.v_eval.specs.Paths.{named_or_not, selecting};
ghost use Rattle.v_eval.specs.Scopes.{scope_of, prim_meaning, own as own_of, callee_at};

use crate::modules::function_of;
use crate::operators::{Context, infix_of, infix_own, larger, prefix_of, prefix_own};
use crate::paths::{Named, bits_named, bits_of_range, select, start};
use crate::scopes::Scope;
use std::alloc::AllocError;
use v_tree::{VExpr, VExtent, VPrim, VSel};

/// A select as it counts for the bits that a path names.
#[derive(Clone, Copy)]
pub struct Shape {
    /// Its base, where that is a decimal number.
    pub decimal: Option<u32>,
    /// What stands behind the base.
    pub extent: Option<VExtent>,
}

/// A select as it counts for the bits that a path names.
pub fn shape_of(sel: &VSel) -> Shape
    ensures meaning { (b : Option ℤ) (p : paths.Path) → paths.select (selecting result.decimal result.extent) b p ≡ paths.select (sel_meaning sel.now) b p }
    ensures limits { selecting result.decimal result.extent ≡ selecting (limits_of_sel sel.now).decimal (limits_of_sel sel.now).extent }
{
    match sel {
        VSel::Decimal { base, extent } => Shape {
            decimal: Some(*base),
            extent: *extent,
        },
        VSel::Expr { base: _, extent } => Shape {
            decimal: None,
            extent: *extent,
        },
    }
}

// An unsigned vector.
fn unsigned(width: usize) -> Context
    ensures { result ≡ record { width = width; signed = false } }
{
    Context {
        width,
        signed: false,
    }
}

// How many bits a name with selects has.
#[tactic(auto, using(crate::proofs::Steps::widths))]
fn bits_selected(sels: &[VSel], named: Option<Named>) -> u128
    ensures meaning { result ≡ width_of (named_or_not named) (map sel_meaning sels.now) }
    ensures limits { result ≡ width_of (named_or_not named) (map (λ (s : SelLimits). selecting s.decimal s.extent) (map limits_of_sel sels.now)) }
{
    let mut path = start(named);
    for sel in sels {
        let shape = shape_of(sel);
        path = select(shape.decimal, shape.extent, None, path);
    }
    bits_named(named, path)
}

// A number of bits, which memory runs out for where it is no index.
fn narrowed(bits: u128) -> Result<usize, AllocError>
    ensures { IfOk result (λ n. n ≡ bits) }
{
    if bits < 18446744073709551616 {
        Ok(bits as usize)
    } else {
        Err(AllocError)
    }
}

// So many bits so often.
fn often(count: u32, bits: usize) -> Result<usize, AllocError>
    ensures { IfOk result (λ n. n ≡ count * bits) }
{
    narrowed(count as u128 * bits as u128)
}

/// Both numbers of bits together. Or want of memory, which a vector so wide would take.
pub fn added(a: usize, b: usize) -> Result<usize, AllocError>
    ensures { IfOk result (λ n. n ≡ a + b) }
{
    narrowed(a as u128 + b as u128)
}

/// The width of a name with selects. Or want of memory, which a vector so wide would take.
pub fn name_wide(sels: &[VSel], named: Option<Named>) -> Result<usize, AllocError>
    ensures meaning { IfOk result (λ n. n ≡ width_of (named_or_not named) (map sel_meaning sels.now)) }
    ensures limits { IfOk result (λ n. n ≡ width_of (named_or_not named) (map (λ (s : SelLimits). selecting s.decimal s.extent) (map limits_of_sel sels.now))) }
{
    narrowed(bits_selected(sels, named))
}

// The width of the result of a function.
#[tactic(auto, using(crate::proofs::Calls::calls))]
fn call_wide(scope: Scope<'_>, function: Option<usize>) -> usize
    ensures { result ≡ (callee_at scope.entry function).width }
{
    match function {
        None => 0,
        Some(i) => match function_of(scope.module.items, i) {
            None => 0,
            Some(f) => bits_of_range(f.range) as usize,
        },
    }
}

// The width of what items have together.
#[cycle(own)]
fn joined_own(scope: Scope<'_>, items: &[VExpr]) -> Result<usize, AllocError>
    ensures meaning { IfOk result (λ n. n ≡ joined_width (map meaning items.now) (scope_of scope.entry)) }
    ensures limits { IfOk result (λ n. n ≡ joined_wide (map limits items.now) (scope_of scope.entry)) }
{
    let mut bits = 0;
    let mut i = items.len();
    while i > 0 {
        i -= 1;
        bits = added(bits, own(scope, &items[i])?.width)?;
    }
    Ok(bits)
}

// The width and the sign of an operand alone.
#[cycle(own)]
#[tactic(auto, using(crate::proofs::Levels::owns))]
pub(crate) fn prim_own(scope: Scope<'_>, prim: &VPrim) -> Result<Context, AllocError>
    ensures meaning { IfOk result (λ c. c ≡ own_of (prim_meaning prim.now) (scope_of scope.entry)) }
    ensures limits { IfOk result (λ c. c.width ≡ (limits_of_prim prim.now).wide (scope_of scope.entry)) }
{
    match prim {
        VPrim::Number(bits) => Ok(unsigned(bits.len())),
        VPrim::Paren(inner) => own(scope, inner.get()),
        VPrim::Name { name, sels } => {
            Ok(unsigned(name_wide(sels.as_slice(), scope.find(name))?))
        }
        VPrim::Call { function, args: _ } => {
            Ok(unsigned(call_wide(scope, scope.function(function))))
        }
        VPrim::Repeat { count, items } => {
            Ok(unsigned(often(*count, joined_own(scope, items.as_slice())?)?))
        }
        VPrim::Concat(items) => Ok(unsigned(joined_own(scope, items.as_slice())?)),
        VPrim::Sign { signed, of } => Ok(Context {
            width: own(scope, of.get())?.width,
            signed: *signed,
        }),
    }
}

/// The width and the sign of an expression alone. Or want of memory, which a vector so wide would take.
#[cycle(own)]
#[tactic(auto, using(crate::proofs::OperatorKinds::kinds, crate::proofs::Levels::owns))]
pub fn own(scope: Scope<'_>, e: &VExpr) -> Result<Context, AllocError>
    ensures meaning { IfOk result (λ c. c ≡ own_of (meaning e.now) (scope_of scope.entry)) }
    ensures limits { IfOk result (λ c. c.width ≡ (limits e.now).wide (scope_of scope.entry)) }
{
    match e {
        VExpr::Prim(a) => prim_own(scope, a),
        VExpr::Unary { op, of } => Ok(prefix_own(prefix_of(*op), prim_own(scope, of)?)),
        VExpr::Binary { op, left, right } => {
            let l = prim_own(scope, left)?;
            let r = prim_own(scope, right)?;
            Ok(infix_own(infix_of(*op), l, r))
        }
        VExpr::Choose { on: _, then, other } => {
            let a = prim_own(scope, then)?;
            let b = prim_own(scope, other)?;
            Ok(larger(a, b))
        }
    }
}
