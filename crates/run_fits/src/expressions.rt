//! What statements ask of their expressions.

ghost use Rattle.std.specs.Prelude.{◌≡◌, map, min};
ghost use Rattle.sv_types.specs.Functions.{parameter};
ghost use Rattle.sv_types.specs.Meanings.{total};
ghost use Rattle.eval_parts.specs.Steps.{is_held};
ghost use Rattle.eval_forms.specs.Callees.{formals_in};
ghost use Rattle.expr_fits.specs.Results.{own_of};
ghost use Rattle.run_fits.specs.Statements.{LocalIf, LocalsIf, BoundsIf, EachIf, AssignIf, WideIf, ItemsWideIf, CaseIf, PassesIf, ActualIf, HandedIf, own_widths, item_widths};

use crate::targets::{are_held, is_held_target};
use b4_core::Vec4;
use expr_fits::{fits, fits_alone, own};
use sv_types::{CaseItem, Expr, Formal, Function, Local, MOST_BITS, Way, is_narrow, width};

// Whether a local can be started.
#[tactic(auto, using(crate::proofs::Parts::locals))]
fn local_fits(l: &Local, functions: &[Function]) -> bool
    ensures { LocalIf result l.now (formals_in functions.now) }
{
    if !is_narrow(&l.of) {
        return false;
    }
    match &l.initial {
        None => true,
        Some(e) => fits(e, functions, width(&l.of).max(own(e))),
    }
}

/// Whether locals can be started.
pub fn locals_fit(ls: &[Local], functions: &[Function]) -> bool
    ensures { LocalsIf result ls.now (formals_in functions.now) }
{
    for l in ls {
        if !local_fits(l, functions) {
            return false;
        }
    }
    true
}

/// Whether the bounds of a loop fit.
#[tactic(auto, using(crate::proofs::Parts::loops))]
pub fn bounds_fit(first: &Expr, test: &Expr, step: &Expr, functions: &[Function]) -> bool
    ensures { BoundsIf result first.now test.now step.now (formals_in functions.now) }
{
    let bits = own(first);
    if !fits(first, functions, bits) {
        return false;
    }
    if !fits_alone(test, functions) {
        return false;
    }
    fits(step, functions, bits.max(own(step)))
}

// Whether each fits alone.
fn each_fits(es: &[Expr], functions: &[Function]) -> bool
    ensures { EachIf result es.now (formals_in functions.now) }
{
    for e in es {
        if !fits_alone(e, functions) {
            return false;
        }
    }
    true
}

// The widths of targets together, or 2^22 + 1 where they are more.
fn own_of_all(es: &[Expr]) -> u32
    ensures { result ≡ min (total (map own_of es.now)) 4194305 }
{
    let mut sum: u32 = 0;
    for e in es {
        sum = (sum + own(e)).min(MOST_BITS + 1);
    }
    sum
}

/// Whether an assignment fits.
#[tactic(auto, using(crate::proofs::Parts::assignments))]
pub fn assign_fits(to: &[Expr], value: &Expr, functions: &[Function], held: &[Option<Vec4>]) -> bool
    ensures { AssignIf result to.now value.now (formals_in functions.now) (is_held held.now) }
{
    if !each_fits(to, functions) {
        return false;
    }
    if !are_held(to, held) {
        return false;
    }
    let bits = own_of_all(to);
    if bits > MOST_BITS {
        return false;
    }
    fits(value, functions, bits.max(own(value)))
}

// The largest width of these.
fn widest(es: &[Expr]) -> u32
    ensures { result ≡ own_widths es.now }
{
    let mut widest = 0;
    for e in es {
        widest = own(e).max(widest);
    }
    widest
}

// The largest width of the values of items.
fn widest_item(items: &[CaseItem]) -> u32
    ensures { result ≡ item_widths items.now }
{
    let mut most = 0;
    for item in items {
        most = widest(item.values.as_slice()).max(most);
    }
    most
}

// Whether all fit at a width.
fn fit_wide(es: &[Expr], functions: &[Function], bits: u32) -> bool
    ensures { WideIf result es.now (formals_in functions.now) bits }
{
    for e in es {
        if !fits(e, functions, bits) {
            return false;
        }
    }
    true
}

// Whether the values of items fit at a width.
fn items_wide(items: &[CaseItem], functions: &[Function], bits: u32) -> bool
    ensures { ItemsWideIf result items.now (formals_in functions.now) bits }
{
    for item in items {
        if !fit_wide(item.values.as_slice(), functions, bits) {
            return false;
        }
    }
    true
}

/// Whether what a `case` compares fits.
#[tactic(auto, using(crate::proofs::Parts::cases))]
pub fn case_fits(on: &Expr, items: &[CaseItem], functions: &[Function]) -> bool
    ensures { CaseIf result on.now items.now (formals_in functions.now) }
{
    let bits = own(on).max(widest_item(items));
    if !fits(on, functions, bits) {
        return false;
    }
    items_wide(items, functions, bits)
}

// Whether an actual can be handed back to.
fn is_handed_back(way: Way, e: &Expr, held: &[Option<Vec4>]) -> bool
    ensures { HandedIf result way e.now (is_held held.now) }
{
    match way {
        Way::Input => true,
        Way::Output => is_held_target(e, held),
        Way::Inout => is_held_target(e, held),
    }
}

// Whether an actual fits as it is passed to a formal.
#[tactic(auto, using(crate::proofs::Parts::actuals))]
fn actual_fits(formal: &Formal, e: &Expr, functions: &[Function], held: &[Option<Vec4>]) -> bool
    ensures { ActualIf result (parameter formal.now) e.now (formals_in functions.now) (is_held held.now) }
{
    if !is_narrow(&formal.local.of) {
        return false;
    }
    if !is_handed_back(formal.way, e, held) {
        return false;
    }
    fits(e, functions, width(&formal.local.of).max(own(e)))
}

/// Whether a call of a task or void function fits. It says so of none with more actuals than formals.
pub fn call_fits(
    formals: &[Formal],
    actuals: &[Expr],
    functions: &[Function],
    held: &[Option<Vec4>],
) -> bool
    ensures { PassesIf result (map parameter formals.now) actuals.now (formals_in functions.now) (is_held held.now) }
{
    if actuals.len() > formals.len() {
        return false;
    }
    for i in 0..actuals.len() {
        if !actual_fits(&formals[i], &actuals[i], functions, held) {
            return false;
        }
    }
    true
}
