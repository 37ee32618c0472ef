//! Selectors of `case`, and what matches them (IEEE 1800-2017 clause 12.5).

ghost use Rattle.std.specs.Prelude.{◌≡◌, ◌≤◌, max, map};
ghost use Rattle.sv_types.specs.Expressions.{meaning};
ghost use Rattle.sv_types.specs.Runs.{match4, agree, widest_of, all_signed};
ghost use Rattle.b4_core.specs.Bits.{known4};
ghost use Rattle.eval_stmts.specs.Targets.{values_of, NarrowItems, AllNarrow};

use b4_core::{Bit4, Vec4};
use eval_parts::{own_sign, own_width};
use sv_types::{CaseItem, CaseKind, Expr};

/// What items are compared with: how, at which width and sign, and the value.
#[derive(Drop)]
pub struct Selector {
    /// How they are compared.
    pub kind: CaseKind,
    /// The width of all values.
    pub width: u32,
    /// Their sign.
    pub signed: bool,
    /// The value of the selector.
    pub value: Vec4,
}

// Whether a bit of a selector and one of an item match.
fn matches_bit(kind: CaseKind, p: Bit4, q: Bit4) -> bool
    ensures { result ≡ match4 kind p q }
{
    match kind {
        CaseKind::Plain => p == q,
        CaseKind::Z => p == q || p == Bit4::Z || q == Bit4::Z,
        CaseKind::X => p == q || !(is_known(p) && is_known(q)),
    }
}

// Whether a bit is 0 or 1.
fn is_known(b: Bit4) -> bool
    ensures { result ≡ known4 b }
{
    match b {
        Bit4::Zero => true,
        Bit4::One => true,
        Bit4::X => false,
        Bit4::Z => false,
    }
}

/// Whether vectors match, bit by bit.
pub fn agrees(kind: CaseKind, u: &Vec4, v: &Vec4) -> bool
    ensures { result ≡ agree kind u.now v.now }
{
    let mut i: usize = 0;
    let count = u.len().min(v.len());
    while i < count {
        if !matches_bit(kind, u.at(i), v.at(i)) {
            return false;
        }
        i += 1;
    }
    true
}

// The larger of a width and those of expressions.
fn widest(es: &[Expr], least: u32) -> u32
    requires { AllNarrow es.now }
    ensures { result ≡ max least (widest_of (map meaning es.now)) }
{
    let mut width = least;
    for e in es {
        width = width.max(own_width(e));
    }
    width
}

/// The larger of a width and those of all values of items.
pub fn widest_value(items: &[CaseItem], least: u32) -> u32
    requires { NarrowItems items.now }
    ensures { result ≡ max least (widest_of (values_of items.now)) }
{
    let mut width = least;
    for item in items {
        width = widest(item.values.as_slice(), width);
    }
    width
}

// Whether all of these are signed.
fn are_all_signed(es: &[Expr]) -> bool
    ensures { result ≡ all_signed (map meaning es.now) }
{
    for e in es {
        if !own_sign(e) {
            return false;
        }
    }
    true
}

/// Whether all values of items are signed.
pub fn all_values_signed(items: &[CaseItem]) -> bool
    ensures { result ≡ all_signed (values_of items.now) }
{
    for item in items {
        if !are_all_signed(item.values.as_slice()) {
            return false;
        }
    }
    true
}
