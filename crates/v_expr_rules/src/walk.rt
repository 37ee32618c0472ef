//! The walk over an expression.

ghost use Rattle.std.specs.Prelude.{◌≡◌, [], map, slice_get};
ghost use Rattle.v_scopes.specs.Env.{found};
ghost use Rattle.v_expr_rules.specs.Seen.{no_items, no_sels};
ghost use Rattle.v_expr_rules.specs.Walks as means;

use crate::lists::{
    ListSeen, call_seen, commas, concat_seen, input_wide, item_added, no_items, repeat_seen,
};
use crate::names::name_seen;
use crate::numbers::plus;
use crate::operations::{binary_seen, choose_seen, kind_of, unary_seen};
use crate::seen::{Seen, number_seen, paren_seen, sign_seen};
use crate::sels::{SelSeen, SelsSeen, decimal_sel, moving_sel, no_sels, sel_added};
use sv_source::at;
use v_scopes::{Entry, Scope};
use v_tree::{VExpr, VItem, VLocal, VPrim, VSel};

// The inputs of the function at an item.
fn inputs_in(items: &[VItem], item: usize) -> &[VLocal]
    ensures { result.now ≡ means.inputs_in (slice_get items.now item) }
{
    match at(items, item) {
        None => &[],
        Some(VItem::Signal(_)) => &[],
        Some(VItem::Initial(_)) => &[],
        Some(VItem::Process(_)) => &[],
        Some(VItem::Function(function)) => function.inputs.as_slice(),
        Some(VItem::Instance(_)) => &[],
    }
}

// The inputs of what a name stands for.
fn inputs_of(items: &[VItem], entry: Option<Entry>) -> &[VLocal]
    ensures { result.now ≡ means.inputs_of items.now entry }
{
    match entry {
        None => &[],
        Some(Entry::Value { kind: _, left: _ }) => &[],
        Some(Entry::Memory { left: _ }) => &[],
        Some(Entry::Function { left: _, item }) => inputs_in(items, item),
        Some(Entry::Result { left: _, item }) => inputs_in(items, item),
        Some(Entry::Part) => &[],
    }
}

/// A select, which begins at a token.
#[cycle(walk)]
fn sel_seen(scope: &Scope, items: &[VItem], sel: &VSel, at: u32) -> SelSeen
    ensures { result ≡ means.sel_seen sel.now (found scope.now) items.now at }
{
    match sel {
        VSel::Decimal { base, extent } => decimal_sel(*base, *extent, at),
        VSel::Expr { base, extent } => {
            moving_sel(
                expr_seen(scope, items, base.get(), plus(at, 1)),
                *extent,
                at,
            )
        }
    }
}

/// The selects of a name, of which the first one begins at a token.
#[cycle(walk)]
pub fn sels_seen(scope: &Scope, items: &[VItem], sels: &[VSel], start: u32) -> SelsSeen
    ensures { result ≡ means.sels_from (map means.sel_seen sels.now) (found scope.now) items.now start no_sels }
{
    let mut seen = no_sels();
    for sel in sels {
        let from = plus(start, seen.size);
        seen = sel_added(seen, from, sel_seen(scope, items, sel, from));
    }
    seen
}

/// A list with commas, of which the first item begins at a token, as arguments for these inputs.
#[cycle(walk)]
fn list_seen(
    scope: &Scope,
    items: &[VItem],
    exprs: &[VExpr],
    inputs: &[VLocal],
    start: u32,
) -> ListSeen
    ensures { result ≡ means.list_from (map means.expr_seen exprs.now) (found scope.now) items.now inputs.now start 0 no_items }
{
    let mut list = no_items();
    for i in 0..exprs.len() {
        let before = commas(i, list.size);
        let item = expr_seen(scope, items, &exprs[i], plus(start, before));
        list = item_added(input_wide(inputs, i), list, before, item);
    }
    list
}

/// An operand, which begins at a token.
#[cycle(walk)]
fn prim_seen(scope: &Scope, items: &[VItem], prim: &VPrim, at: u32) -> Seen
    ensures { result ≡ means.prim_seen prim.now (found scope.now) items.now at }
{
    match prim {
        VPrim::Number(bits) => number_seen(bits),
        VPrim::Paren(inner) => paren_seen(expr_seen(scope, items, inner.get(), plus(at, 1))),
        VPrim::Name { name, sels } => name_seen(
            scope.find(name),
            sels_seen(scope, items, sels.as_slice(), plus(at, 1)),
            at,
        ),
        VPrim::Call { function, args } => {
            let entry = scope.find(function);
            let inputs = inputs_of(items, entry);
            let list = list_seen(scope, items, args.as_slice(), inputs, plus(at, 2));
            call_seen(entry, inputs.len(), args.len(), list, at)
        }
        VPrim::Repeat {
            count,
            items: parts,
        } => repeat_seen(
            *count,
            list_seen(scope, items, parts.as_slice(), &[], plus(at, 3)),
            at,
        ),
        VPrim::Concat(parts) => {
            concat_seen(list_seen(scope, items, parts.as_slice(), &[], plus(at, 1)))
        }
        VPrim::Sign { signed: _, of } => {
            sign_seen(expr_seen(scope, items, of.get(), plus(at, 2)))
        }
    }
}

/// What is kept of an expression that begins at a token, where names stand for these things in a module of these items.
#[cycle(walk)]
pub fn expr_seen(scope: &Scope, items: &[VItem], expr: &VExpr, at: u32) -> Seen
    ensures { result ≡ means.expr_seen expr.now (found scope.now) items.now at }
{
    match expr {
        VExpr::Prim(a) => prim_seen(scope, items, a, at),
        VExpr::Unary { op, of } => { unary_seen(*op, prim_seen(scope, items, of, plus(at, 1)), at) }
        VExpr::Binary { op, left, right } => {
            let a = prim_seen(scope, items, left, at);
            let b = prim_seen(scope, items, right, plus(at, plus(1, a.size)));
            binary_seen(kind_of(*op), a, b, at)
        }
        VExpr::Choose { on, then, other } => {
            let on = prim_seen(scope, items, on, at);
            let a = prim_seen(scope, items, then, plus(at, plus(1, on.size)));
            let from = plus(at, plus(plus(1, on.size), plus(1, a.size)));
            choose_seen(on, a, prim_seen(scope, items, other, from))
        }
    }
}
