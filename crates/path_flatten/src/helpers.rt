//! The helper functions that a text calls, each of them once.

ghost use Rattle.std.specs.Prelude.{◌≡◌, ◌<◌, ◌↔◌, IsTrue, IfOk, OnOk};
ghost use Rattle.row_machine.specs.Valuation.{Member};
ghost use Rattle.two_state.specs.Kinds.{HasBits};
ghost use Rattle.v_tree.specs.Printing.{helper_text};
ghost use Rattle.path_flatten.specs.Helping.{IsSized, Grows};

use std::alloc::{AllocError, Global};
use sv_source::{Items, Text};
use v_tree::{Helper, HelperKind, helper_name};

/// Helper functions, each of them once.
pub type Helpers = Items<Helper>;

/// Whether two kinds are one.
fn is_same_kind(a: HelperKind, b: HelperKind) -> bool
    ensures { IsTrue result ↔ (a ≡ b) }
{
    match (a, b) {
        (HelperKind::Cast, HelperKind::Cast) => true,
        (HelperKind::Cast, HelperKind::TwoState) => false,
        (HelperKind::Cast, HelperKind::Select { .. }) => false,
        (HelperKind::Cast, HelperKind::WildEq) => false,
        (HelperKind::TwoState, HelperKind::Cast) => false,
        (HelperKind::TwoState, HelperKind::TwoState) => true,
        (HelperKind::TwoState, HelperKind::Select { .. }) => false,
        (HelperKind::TwoState, HelperKind::WildEq) => false,
        (HelperKind::Select { .. }, HelperKind::Cast) => false,
        (HelperKind::Select { .. }, HelperKind::TwoState) => false,
        (
            HelperKind::Select { part, index },
            HelperKind::Select {
                part: other_part,
                index: other_index,
            },
        ) => part == other_part && index == other_index,
        (HelperKind::Select { .. }, HelperKind::WildEq) => false,
        (HelperKind::WildEq, HelperKind::Cast) => false,
        (HelperKind::WildEq, HelperKind::TwoState) => false,
        (HelperKind::WildEq, HelperKind::Select { .. }) => false,
        (HelperKind::WildEq, HelperKind::WildEq) => true,
    }
}

/// Whether two helpers are one.
fn is_same(a: Helper, b: Helper) -> bool
    ensures { IsTrue result ↔ (a ≡ b) }
{
    a.width == b.width && is_same_kind(a.kind, b.kind)
}

/// Whether a helper is among others.
fn is_among(helpers: &[Helper], h: Helper) -> bool
    ensures { IsTrue result ↔ Member helpers.now h }
{
    for other in helpers {
        if is_same(*other, h) {
            return true;
        }
    }
    false
}

/// Whether the kind's sizes are at least 1.
fn has_bits(kind: HelperKind) -> bool
    ensures { IsTrue result ↔ HasBits kind }
{
    match kind {
        HelperKind::Cast => true,
        HelperKind::TwoState => true,
        HelperKind::Select { part, index } => 0 < part && 0 < index,
        HelperKind::WildEq => true,
    }
}

/// Whether all sizes are at least 1.
fn is_sized(h: Helper) -> bool
    ensures { IsTrue result ↔ IsSized h }
{
    0 < h.width && has_bits(h.kind)
}

/// Notes a helper, if its sizes are at least 1 and it isn't noted.
fn note(h: Helper, helpers: &mut Helpers) -> Result<(), AllocError>
    ensures grows { OnOk result (Grows helpers.old helpers.new) }
    ensures there { OnOk result (IsSized h → Member helpers.new h) }
{
    if !is_sized(h) {
        return Ok(());
    }
    if is_among(helpers.as_slice(), h) {
        return Ok(());
    }
    helpers.push(h)?;
    Ok(())
}

/// Notes that the text calls a helper, if its sizes are at least 1, and gives its name. Or want of memory.
pub fn need(alloc: Global, h: Helper, helpers: &mut Helpers) -> Result<Text, AllocError>
    ensures name { IfOk result (λ name. name ≡ helper_text h) }
    ensures grows { OnOk result (Grows helpers.old helpers.new) }
    ensures there { OnOk result (IsSized h → Member helpers.new h) }
{
    note(h, helpers)?;
    helper_name(alloc, &h)
}
