//! Calls of helper functions.

ghost use Rattle.std.specs.Prelude.{◌≡◌, [], ◌∷◌, IfOk, OnOk};
ghost use Rattle.v_meaning.specs.Values.{meaning};
ghost use Rattle.v_build.specs.Trees.{meanings};
ghost use Rattle.path_flatten.specs.Helping.{Grows};
ghost use Rattle.form_lower.specs.Calls.{Calls};

use path_flatten::{Helpers, need};
use std::alloc::{AllocError, Global};
use v_build::call;
use v_tree::{Helper, VExpr, VExprs};

/// One item of a list.
pub fn one_item(alloc: Global, of: VExpr) -> Result<VExprs, AllocError>
    ensures { IfOk result (λ es. meanings es ≡ meaning of ∷ []) }
{
    let mut items = VExprs::new(alloc);
    items.push(of)?;
    Ok(items)
}

/// Two items of a list.
pub fn two_items(alloc: Global, first: VExpr, second: VExpr) -> Result<VExprs, AllocError>
    ensures { IfOk result (λ es. meanings es ≡ meaning first ∷ meaning second ∷ []) }
{
    let mut items = VExprs::new(alloc);
    items.push(first)?;
    items.push(second)?;
    Ok(items)
}

/// A call of a helper.
fn helper_call(
    alloc: Global,
    helper: Helper,
    args: VExprs,
    helpers: &mut Helpers,
) -> Result<VExpr, AllocError>
    ensures grows { OnOk result (Grows helpers.old helpers.new) }
    ensures calls { IfOk result (λ m. Calls helper (meanings args) helpers.new (meaning m)) }
{
    let function = need(alloc, helper, helpers)?;
    Ok(call(function, args))
}

/// A call of a helper with one argument.
pub fn call_one(
    alloc: Global,
    helper: Helper,
    of: VExpr,
    helpers: &mut Helpers,
) -> Result<VExpr, AllocError>
    ensures grows { OnOk result (Grows helpers.old helpers.new) }
    ensures calls { IfOk result (λ m. Calls helper (meaning of ∷ []) helpers.new (meaning m)) }
{
    let args = one_item(alloc, of)?;
    helper_call(alloc, helper, args, helpers)
}

/// A call of a helper with two arguments.
pub fn call_two(
    alloc: Global,
    helper: Helper,
    first: VExpr,
    second: VExpr,
    helpers: &mut Helpers,
) -> Result<VExpr, AllocError>
    ensures grows { OnOk result (Grows helpers.old helpers.new) }
    ensures calls { IfOk result (λ m. Calls helper (meaning first ∷ meaning second ∷ []) helpers.new (meaning m)) }
{
    let args = two_items(alloc, first, second)?;
    helper_call(alloc, helper, args, helpers)
}
