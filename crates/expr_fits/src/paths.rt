//! What select paths ask of their parts (IEEE 1800-2017 clauses 7.2.1, 7.4.5, 7.4.6 and 11.5.1).

ghost use Rattle.std.specs.Prelude.{◌≡◌, ◌<◌, ℕ, List};
ghost use Rattle.sv_types.specs.declared.expression.Form.TheVariants as V;
ghost use Rattle.sv_types.specs.Surroundings.{Parameter};
ghost use Rattle.expr_fits.specs.Needs.{IsNeed, ShortIf};

use crate::alike::{count_between, is_element_type, is_elements_type, is_member_type};
use crate::needs::{Need, Part};
use crate::results::{has_bits, own};
use sv_types::Expr;

// Whether an index has at most 64 bits.
fn is_short(width: u32) -> bool
    ensures { ShortIf result width }
{
    width <= 64
}

/// A whole signal.
pub fn signal<'a>(e: &'a Expr, n: u32, width: u32) -> Need<'a>
    requires form { e.now.form ≡ V.Signal n }
    requires some { 0 < width }
    ensures { (fs : ℕ → List Parameter) → IsNeed result e.now fs width }
{
    if !has_bits(&e.of) {
        return Need::Never;
    }
    Need::Nothing
}

/// A whole local.
pub fn local<'a>(e: &'a Expr, n: u32, width: u32) -> Need<'a>
    requires form { e.now.form ≡ V.Local n }
    requires some { 0 < width }
    ensures { (fs : ℕ → List Parameter) → IsNeed result e.now fs width }
{
    if !has_bits(&e.of) {
        return Need::Never;
    }
    Need::Nothing
}

/// A member.
pub fn member<'a>(e: &'a Expr, x: &'a Expr, k: u32, width: u32) -> Need<'a>
    requires form { e.now.form ≡ V.Member x.now k }
    requires some { 0 < width }
    ensures { (fs : ℕ → List Parameter) → IsNeed result e.now fs width }
{
    if !has_bits(&e.of) {
        return Need::Never;
    }
    if !is_member_type(&e.of, &x.of, k) {
        return Need::Never;
    }
    Need::One(Part {
        of: x,
        width: own(x),
    })
}

/// An element by an index.
pub fn index<'a>(e: &'a Expr, x: &'a Expr, y: &'a Expr, width: u32) -> Need<'a>
    requires form { e.now.form ≡ V.Index x.now y.now }
    requires some { 0 < width }
    ensures { (fs : ℕ → List Parameter) → IsNeed result e.now fs width }
{
    if !has_bits(&e.of) {
        return Need::Never;
    }
    if !is_element_type(&e.of, &x.of) {
        return Need::Never;
    }
    if !is_short(own(y)) {
        return Need::Never;
    }
    Need::Two(
        Part {
            of: x,
            width: own(x),
        },
        Part {
            of: y,
            width: own(y),
        },
    )
}

/// A part-select with constant bounds.
pub fn part_select<'a>(e: &'a Expr, x: &'a Expr, left: i64, right: i64, width: u32) -> Need<'a>
    requires form { e.now.form ≡ V.Part x.now left right }
    requires some { 0 < width }
    ensures { (fs : ℕ → List Parameter) → IsNeed result e.now fs width }
{
    if !has_bits(&e.of) {
        return Need::Never;
    }
    if !is_elements_type(&e.of, &x.of, count_between(left, right)) {
        return Need::Never;
    }
    Need::One(Part {
        of: x,
        width: own(x),
    })
}

/// An indexed part-select.
pub fn sliding<'a>(
    e: &'a Expr,
    x: &'a Expr,
    y: &'a Expr,
    count: u32,
    up: bool,
    width: u32,
) -> Need<'a>
    requires form { e.now.form ≡ V.Slide x.now y.now count up }
    requires some { 0 < width }
    ensures { (fs : ℕ → List Parameter) → IsNeed result e.now fs width }
{
    if !has_bits(&e.of) {
        return Need::Never;
    }
    if !is_elements_type(&e.of, &x.of, u128::from(count)) {
        return Need::Never;
    }
    if !is_short(own(y)) {
        return Need::Never;
    }
    Need::Two(
        Part {
            of: x,
            width: own(x),
        },
        Part {
            of: y,
            width: own(y),
        },
    )
}
