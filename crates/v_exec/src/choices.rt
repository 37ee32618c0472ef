//! Which item of a `case` runs (IEEE 1364-2005 clause 9.5).

ghost use Rattle.std.specs.Prelude.{◌≡◌, ◌≤◌, map, IfOk};
ghost use Rattle.std.specs.List.{list_any};
ghost use Rattle.v_meaning.specs.Runs.{matches};
ghost use Rattle.v_meaning.specs.Values.{meaning};
ghost use Rattle.v_eval.specs.Answering.{Answers};
ghost use Rattle.v_eval.specs.Holding.{holds};
ghost use Rattle.v_eval.specs.Limits.{limits};
ghost use Rattle.v_eval.specs.Scopes.{scope_of};
ghost use Rattle.v_exec.specs.Choices.{item_of, selector_of, Chooses, IsDefault, is_default_item};
ghost use Rattle.v_exec.specs.Limits.{limits_of_item, values_in, most_at};

use crate::selectors::{Selector, values_of};
use b4_core::Vec4;
use std::alloc::{AllocError, Global};
use v_eval::{Around, Held, Vectors, value};
use v_run::agree;
use v_tree::{VCaseItem, VExpr};

// Whether a selector matches one of these values. They are valued in order, until one matches.
fn is_matched<F: Fn(Held<'_>, usize, Vectors) -> Result<Vec4, AllocError>>(
    alloc: Global,
    around: Around<'_>,
    call: &F,
    selector: &Selector,
    values: &[VExpr],
) -> Result<bool, AllocError>
    requires callable { F.IsAlwaysCallable call.now }
    requires right { Answers around.scope (F.post call.now) }
    requires narrow { most_at selector.now.at.width (map limits values.now) (scope_of around.scope) ≤ 128 }
    ensures { IfOk result (λ b. b ≡ list_any (matches (selector_of selector.now) (scope_of around.entry.scope) (holds around.entry.held)) (map meaning values.now)) }
{
    for e in values {
        let value = value(alloc, around, call, e, selector.at)?;
        if agree(selector.kind, &selector.value, &value) {
            return Ok(true);
        }
    }
    Ok(false)
}

// Whether an item is the `default`.
fn is_default(item: &VCaseItem) -> bool
    ensures { result ≡ is_default_item (item_of item.now) }
{
    match item {
        VCaseItem::Item { .. } => false,
        VCaseItem::Default(_) => true,
    }
}

// The number of the `default`, if there is one.
fn default_of(items: &[VCaseItem]) -> Option<usize>
    ensures { IsDefault (map item_of items.now) result }
{
    for i in 0..items.len() {
        if is_default(&items[i]) {
            return Some(i);
        }
    }
    None
}

/// The number of the item that a selector chooses by what is held: the first one of which a value matches, and else the
/// `default`, if there is one. Or want of memory.
pub fn chosen<F: Fn(Held<'_>, usize, Vectors) -> Result<Vec4, AllocError>>(
    alloc: Global,
    around: Around<'_>,
    call: &F,
    selector: &Selector,
    items: &[VCaseItem],
) -> Result<Option<usize>, AllocError>
    requires callable { F.IsAlwaysCallable call.now }
    requires right { Answers around.scope (F.post call.now) }
    requires narrow { most_at selector.now.at.width (values_in (map limits_of_item items.now)) (scope_of around.scope) ≤ 128 }
    ensures { IfOk result (Chooses (selector_of selector.now) (map item_of items.now) (scope_of around.entry.scope) (holds around.entry.held)) }
{
    for i in 0..items.len() {
        if is_matched(alloc, around, call, selector, values_of(&items[i]))? {
            return Ok(Some(i));
        }
    }
    Ok(default_of(items))
}
