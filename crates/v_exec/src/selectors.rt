//! Selectors of `case` (IEEE 1364-2005 clause 9.5).

ghost use Rattle.std.specs.Prelude.{◌≡◌, ◌≤◌, ◌∷◌, ◌&&◌, max, map, IfOk};
ghost use Rattle.v_meaning.specs.Runs as means;
ghost use Rattle.v_meaning.specs.Statements.{item_values};
ghost use Rattle.v_meaning.specs.Values.{meaning};
ghost use Rattle.v_eval.specs.Answering.{Answers};
ghost use Rattle.v_eval.specs.Holding.{holds};
ghost use Rattle.v_eval.specs.Limits.{limits};
ghost use Rattle.v_eval.specs.Scopes.{scope_of};
ghost use Rattle.v_exec.specs.Choices.{item_of, values_of as item_meanings, selector_of, widened};
ghost use Rattle.v_exec.specs.Limits.{limits_of_item, values_in, widest_of, most_compared, most_at};

use b4_core::Vec4;
use std::alloc::{AllocError, Global};
use v_eval::{Around, Context, Held, Scope, Vectors, own, value};
use v_tree::{VCaseItem, VCaseKind, VExpr};

/// The selector of a `case` as it is compared with the values of the items.
#[derive(Drop)]
pub struct Selector {
    /// How they are compared.
    pub kind: VCaseKind,
    /// The width and the sign of the selector and of all values.
    pub at: Context,
    /// Its value.
    pub value: Vec4,
}

/// The values of an item of a `case`, of which a `default` has none.
pub fn values_of(item: &VCaseItem) -> &[VExpr]
    ensures meaning { map meaning result.now ≡ item_meanings (item_of item.now) }
    ensures limits { map limits result.now ≡ (limits_of_item item.now).values }
{
    match item {
        VCaseItem::Item { values, body: _ } => values.as_slice(),
        VCaseItem::Default(_) => &[],
    }
}

// The larger width of these, and a sign if both have one.
fn wider(a: Context, b: Context) -> Context
    ensures { result ≡ record { width = max a.width b.width; signed = a.signed && b.signed } }
{
    Context {
        width: a.width.max(b.width),
        signed: a.signed && b.signed,
    }
}

// The width and the sign of what is compared with values too.
fn with_values(scope: Scope<'_>, values: &[VExpr], at: Context) -> Result<Context, AllocError>
    ensures meaning { IfOk result (λ c. c ≡ widened at (map meaning values.now) (scope_of scope.entry)) }
    ensures limits { IfOk result (λ c. c.width ≡ max at.width (widest_of (map limits values.now) (scope_of scope.entry))) }
{
    let mut at = at;
    for e in values {
        at = wider(at, own(scope, e)?);
    }
    Ok(at)
}

// The width and the sign of what is compared with the values of items too.
fn with_items(scope: Scope<'_>, items: &[VCaseItem], at: Context) -> Result<Context, AllocError>
    ensures meaning { IfOk result (λ c. c ≡ widened at (item_values (map item_of items.now)) (scope_of scope.entry)) }
    ensures limits { IfOk result (λ c. c.width ≡ max at.width (widest_of (values_in (map limits_of_item items.now)) (scope_of scope.entry))) }
{
    let mut at = at;
    for item in items {
        at = with_values(scope, values_of(item), at)?;
    }
    Ok(at)
}

/// The selector of a `case`, valued by what is held. Or want of memory.
pub fn selector_at<F: Fn(Held<'_>, usize, Vectors) -> Result<Vec4, AllocError>>(
    alloc: Global,
    around: Around<'_>,
    call: &F,
    kind: VCaseKind,
    on: &VExpr,
    items: &[VCaseItem],
) -> Result<Selector, AllocError>
    requires callable { F.IsAlwaysCallable call.now }
    requires right { Answers around.scope (F.post call.now) }
    requires narrow { most_compared (limits on.now ∷ values_in (map limits_of_item items.now)) (scope_of around.scope) ≤ 128 }
    ensures selector { IfOk result (λ s. selector_of s ≡ means.selector kind (meaning on.now) (item_values (map item_of items.now)) (scope_of around.entry.scope) (holds around.entry.held)) }
    ensures narrow { IfOk result (λ s. most_at s.at.width (values_in (map limits_of_item items.now)) (scope_of around.entry.scope) ≤ 128) }
{
    let at = with_items(around.scope, items, own(around.scope, on)?)?;
    let value = value(alloc, around, call, on, at)?;
    Ok(Selector { kind, at, value })
}
