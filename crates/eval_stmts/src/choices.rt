//! How a `case` chooses (IEEE 1800-2017 clause 12.5).

ghost use Rattle.std.specs.Prelude.{◌≡◌, map};
ghost use Rattle.sv_types.specs.Expressions.{meaning};
ghost use Rattle.eval_exprs.specs.Calls.{CallsRun};
ghost use Rattle.eval_exprs.specs.Held.{formals};
ghost use Rattle.eval_stmts.specs.Environments.{standing, SameSlots};
ghost use Rattle.eval_stmts.specs.Targets.{AllFitWide, CaseFits, ChoiceGives, TriedGives, selector_of};

use crate::env::Env;
use crate::selectors::{Selector, agrees, all_values_signed, widest_value};
use crate::values::bits_in;
use eval_exprs::{Call, Called, Scope};
use eval_parts::{Halt, own_sign, own_width};
use std::alloc::Global;
use sv_types::{CaseItem, CaseKind, Expr};

// Whether one of an item's values matches. They are valued in order, until one does.
fn is_matched<C: Fn(Call) -> Result<Called, Halt>>(
    alloc: Global,
    calls: &C,
    scope: Scope<'_>,
    selector: &Selector,
    values: &[Expr],
    env: &mut Env,
) -> Result<bool, Halt>
    requires calls { CallsRun (C.IsAlwaysCallable calls.now) (C.post calls.now) scope }
    requires fits { AllFitWide values.now (formals scope) selector.now.width }
    ensures same { SameSlots env.old env.new }
    ensures gives { TriedGives result (selector_of selector.now) (map meaning values.now) (standing scope.entry env.old) env.old.budget env.new.budget }
{
    for e in values {
        let value = bits_in(alloc, calls, scope, e, selector.width, selector.signed, env)?;
        if agrees(selector.kind, &selector.value, &value) {
            return Ok(true);
        }
    }
    Ok(false)
}

/// The number of the first item of a `case` that matches.
pub fn chosen_item<C: Fn(Call) -> Result<Called, Halt>>(
    alloc: Global,
    calls: &C,
    scope: Scope<'_>,
    kind: CaseKind,
    on: &Expr,
    items: &[CaseItem],
    env: &mut Env,
) -> Result<Option<usize>, Halt>
    requires calls { CallsRun (C.IsAlwaysCallable calls.now) (C.post calls.now) scope }
    requires fits { CaseFits on.now items.now (formals scope) }
    ensures { ChoiceGives result scope.entry kind on.now items.now env.old env.new }
{
    let width = widest_value(items, own_width(on));
    let signed = own_sign(on) && all_values_signed(items);
    let value = bits_in(alloc, calls, scope, on, width, signed, env)?;
    let selector = Selector {
        kind,
        width,
        signed,
        value,
    };
    for (k, item) in items.iter().enumerate() {
        if is_matched(alloc, calls, scope, &selector, item.values.as_slice(), env)? {
            return Ok(Some(k));
        }
    }
    Ok(None)
}
