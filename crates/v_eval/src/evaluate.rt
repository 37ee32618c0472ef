//! The values of expressions (IEEE 1364-2005 clause 5). What a call gives is asked of a function that is passed along, so that
//! functions, whose bodies hold expressions, can stand above.

ghost use Rattle.std.specs.Prelude.{◌≡◌, ◌≤◌, length, map, IfOk};
ghost use Rattle.v_meaning.specs.Scopes.{bits_of_range as range_bits};
ghost use Rattle.v_meaning.specs.Selects.{start as started, path_from, select as selected};
ghost use Rattle.v_meaning.specs.Values as means;
ghost use Rattle.v_meaning.specs.Values.{meaning, sel_meaning};
ghost use Rattle.v_tree.specs.declared.items.VLocal.{VLocal};
ghost use Rattle.v_eval.specs.Answering.{Answers};
ghost use Rattle.v_eval.specs.Holding.{holds};
ghost use Rattle.v_eval.specs.Limits.{limits, limits_of_prim, limits_of_sel, most_of_all, most_of_sels, most_of_args};
ghost use Rattle.v_eval.specs.Paths.{named_or_not, path_of, IsShort};
ghost use Rattle.v_eval.specs.Scopes.{scope_of, prim_meaning};

use crate::around::{Around, Vectors, read_name};
use crate::held::Held;
use crate::indices::index_of;
use crate::modules::inputs_of;
use crate::operators::{
    Context, infix_of, infix_value, left_context, prefix_context, prefix_of, prefix_value,
    right_context,
};
use crate::paths::{Named, Path, bits_of_range, select, start};
use crate::vectors::{chosen, cut, empty, extended, repeated, stacked};
use crate::widths::{own, prim_own};
use b4_core::{Vec4, truth};
use std::alloc::{AllocError, Global};
use v_tree::{VExpr, VLocal, VPrim, VSel};

// A select behind a path.
#[cycle(evaluate)]
fn step<F: Fn(Held<'_>, usize, Vectors) -> Result<Vec4, AllocError>>(
    alloc: Global,
    around: Around<'_>,
    call: &F,
    sel: &VSel,
    path: Path,
) -> Result<Path, AllocError>
    requires callable { F.IsAlwaysCallable call.now }
    requires right { Answers around.scope (F.post call.now) }
    requires narrow { (limits_of_sel sel.now).most (scope_of around.scope) ≤ 128 }
    requires short { IsShort path }
    ensures path { IfOk result (λ p. path_of p ≡ selected (sel_meaning sel.now) ((sel_meaning sel.now).base (scope_of around.entry.scope) (holds around.entry.held)) (path_of path)) }
    ensures short { IfOk result IsShort }
{
    match sel {
        VSel::Decimal { base, extent } => Ok(select(
            Some(*base),
            *extent,
            Some(*base as i128),
            path,
        )),
        VSel::Expr { base, extent } => {
            let at = own(around.scope, base.get())?;
            let v = value(alloc, around, call, base.get(), at)?;
            Ok(select(None, *extent, index_of(&v, at.signed), path))
        }
    }
}

/// Which bits a name with selects names, its indices valued by what is held. Or want of memory.
#[cycle(evaluate)]
pub fn path<F: Fn(Held<'_>, usize, Vectors) -> Result<Vec4, AllocError>>(
    alloc: Global,
    around: Around<'_>,
    call: &F,
    sels: &[VSel],
    named: Option<Named>,
) -> Result<Path, AllocError>
    requires callable { F.IsAlwaysCallable call.now }
    requires right { Answers around.scope (F.post call.now) }
    requires narrow { most_of_sels (map limits_of_sel sels.now) (scope_of around.scope) ≤ 128 }
    ensures path { IfOk result (λ p. path_of p ≡ path_from (scope_of around.entry.scope) (holds around.entry.held) (map sel_meaning sels.now) (started (named_or_not named))) }
    ensures short { IfOk result IsShort }
{
    let mut path = start(named);
    for sel in sels {
        path = step(alloc, around, call, sel, path)?;
    }
    Ok(path)
}

// The items of a concatenation, the first most significant.
#[cycle(evaluate)]
fn joined<F: Fn(Held<'_>, usize, Vectors) -> Result<Vec4, AllocError>>(
    alloc: Global,
    around: Around<'_>,
    call: &F,
    items: &[VExpr],
) -> Result<Vec4, AllocError>
    requires callable { F.IsAlwaysCallable call.now }
    requires right { Answers around.scope (F.post call.now) }
    requires narrow { most_of_all (map limits items.now) (scope_of around.scope) ≤ 128 }
    ensures { IfOk result (λ v. v ≡ means.joined (map meaning items.now) (scope_of around.entry.scope) (holds around.entry.held)) }
{
    let mut pieces = Vectors::new(alloc);
    for item in items {
        let at = own(around.scope, item)?;
        pieces.push(value(alloc, around, call, item, at)?)?;
    }
    stacked(alloc, pieces.as_slice())
}

// What the inputs of a function get.
#[cycle(evaluate)]
fn arguments<F: Fn(Held<'_>, usize, Vectors) -> Result<Vec4, AllocError>>(
    alloc: Global,
    around: Around<'_>,
    call: &F,
    inputs: &[VLocal],
    args: &[VExpr],
) -> Result<Vectors, AllocError>
    requires callable { F.IsAlwaysCallable call.now }
    requires right { Answers around.scope (F.post call.now) }
    requires narrow { most_of_args (map (λ (l : VLocal). range_bits l.range) inputs.now) (map limits args.now) (scope_of around.scope) ≤ 128 }
    ensures { IfOk result (λ vs. vs ≡ means.arguments (map (λ (l : VLocal). range_bits l.range) inputs.now) (map meaning args.now) (scope_of around.entry.scope) (holds around.entry.held)) }
{
    let mut made = Vectors::new(alloc);
    for i in 0..inputs.len().min(args.len()) {
        let width = bits_of_range(inputs[i].range) as usize;
        let own = own(around.scope, &args[i])?;
        let at = Context {
            width: width.max(own.width),
            signed: own.signed,
        };
        let v = value(alloc, around, call, &args[i], at)?;
        made.push(cut(alloc, &v, width)?)?;
    }
    Ok(made)
}

// The value of an operand at a width and a sign.
#[cycle(evaluate)]
#[tactic(auto, using(crate::proofs::Narrow::narrows))]
fn prim_value<F: Fn(Held<'_>, usize, Vectors) -> Result<Vec4, AllocError>>(
    alloc: Global,
    around: Around<'_>,
    call: &F,
    prim: &VPrim,
    at: Context,
) -> Result<Vec4, AllocError>
    requires callable { F.IsAlwaysCallable call.now }
    requires right { Answers around.scope (F.post call.now) }
    requires narrow { (limits_of_prim prim.now).most at.width (scope_of around.scope) ≤ 128 }
    ensures value { IfOk result (λ v. v ≡ (prim_meaning prim.now).value at.width at.signed (scope_of around.entry.scope) (holds around.entry.held)) }
    ensures long { IfOk result (λ v. length v ≡ at.width) }
{
    match prim {
        VPrim::Number(bits) => Ok(extended(alloc, bits, at.width, at.signed)?),
        VPrim::Paren(inner) => Ok(value(alloc, around, call, inner.get(), at)?),
        VPrim::Name { name, sels } => {
            let named = around.scope.find(name);
            let path = path(alloc, around, call, sels.as_slice(), named)?;
            let bits = read_name(alloc, around.held, named, sels.as_slice(), path)?;
            Ok(extended(alloc, &bits, at.width, at.signed)?)
        }
        VPrim::Call { function, args } => match around.scope.function(function) {
            None => Ok(extended(alloc, &empty(alloc), at.width, at.signed)?),
            Some(i) => {
                let inputs = inputs_of(around.scope.module.items, i);
                let values = arguments(alloc, around, call, inputs, args.as_slice())?;
                let bits = call(around.held, i, values)?;
                Ok(extended(alloc, &bits, at.width, at.signed)?)
            }
        },
        VPrim::Repeat { count, items } => {
            let bits = joined(alloc, around, call, items.as_slice())?;
            Ok(extended(alloc, &repeated(alloc, *count, &bits)?, at.width, at.signed)?)
        }
        VPrim::Concat(items) => {
            let bits = joined(alloc, around, call, items.as_slice())?;
            Ok(extended(alloc, &bits, at.width, at.signed)?)
        }
        VPrim::Sign { signed: _, of } => {
            let own = own(around.scope, of.get())?;
            let bits = value(alloc, around, call, of.get(), own)?;
            Ok(extended(alloc, &bits, at.width, at.signed)?)
        }
    }
}

/// The value of an expression at a width and a sign (IEEE 1364-2005 clauses 5.4 and 5.5), by what signals and locals hold.
/// `call` gives what the function at an item of the module gives for what is held and its inputs. Or want of memory.
#[cycle(evaluate)]
pub fn value<F: Fn(Held<'_>, usize, Vectors) -> Result<Vec4, AllocError>>(
    alloc: Global,
    around: Around<'_>,
    call: &F,
    e: &VExpr,
    at: Context,
) -> Result<Vec4, AllocError>
    requires callable { F.IsAlwaysCallable call.now }
    requires right { Answers around.scope (F.post call.now) }
    requires narrow { (limits e.now).most at.width (scope_of around.scope) ≤ 128 }
    ensures value { IfOk result (λ v. v ≡ (meaning e.now).value at.width at.signed (scope_of around.entry.scope) (holds around.entry.held)) }
    ensures long { IfOk result (λ v. length v ≡ at.width) }
{
    match e {
        VExpr::Prim(a) => Ok(prim_value(alloc, around, call, a, at)?),
        VExpr::Unary { op, of } => {
            let op = prefix_of(*op);
            let inner = prefix_context(op, at, prim_own(around.scope, of)?);
            let v = prim_value(alloc, around, call, of, inner)?;
            Ok(prefix_value(alloc, op, at, &v)?)
        }
        VExpr::Binary { op, left, right } => {
            let op = infix_of(*op);
            let l = prim_own(around.scope, left)?;
            let r = prim_own(around.scope, right)?;
            let a = prim_value(alloc, around, call, left, left_context(op, at, l, r))?;
            let b = prim_value(alloc, around, call, right, right_context(op, at, l, r))?;
            Ok(infix_value(alloc, op, at, l, r, &a, &b)?)
        }
        VExpr::Choose { on, then, other } => {
            let own = prim_own(around.scope, on)?;
            let test = truth(&prim_value(alloc, around, call, on, own)?);
            let a = prim_value(alloc, around, call, then, at)?;
            let b = prim_value(alloc, around, call, other, at)?;
            Ok(chosen(alloc, test, a, b)?)
        }
    }
}
