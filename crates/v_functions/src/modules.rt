//! The calls in the functions of a module, and the first one that leads back.

ghost use Rattle.std.specs.Prelude.{◌≡◌, IfOk, OnOk};
ghost use Rattle.v_scopes.specs.Env.{found, hidden_in};
ghost use Rattle.v_functions.specs.Numbered.{numbers_in};
ghost use Rattle.v_functions.specs.Walks as walks;
ghost use Rattle.v_functions.specs.Modules as means;

use crate::statements::stmt_walked;
use crate::table::Functions;
use crate::walk::Walk;
use call_circles::Need;
use std::alloc::{AllocError, Global};
use sv_source::Items;
use v_circles::{item_tokens, short};
use v_expr_rules::{earlier, plus};
use v_item_rules::{enter_function, range_tokens};
use v_rules::{list_tokens, module_scope};
use v_scopes::Scope;
use v_tree::{VFunction, VItem, VModule};

// Adds the calls in a function, which is the item with this number and begins at the next token.
fn function_walked(
    alloc: Global,
    functions: &Functions,
    scope: &mut Scope,
    function: &VFunction,
    number: usize,
    walk: &mut Walk,
) -> Result<(), AllocError>
    ensures tells { OnOk result (walk.new ≡ walks.function_walked function.now number (numbers_in functions.now) (found scope.old) walk.old) }
    ensures keeps { OnOk result (found scope.new ≡ found scope.old) }
    ensures hides { OnOk result (hidden_in scope.new ≡ hidden_in scope.old) }
{
    walk.from = short(number)?;
    walk.at = plus(walk.at, plus(3, range_tokens(function.range)));
    walk.skip_locals(function.inputs.as_slice());
    walk.skip_locals(function.locals.as_slice());
    let outside = scope.mark();
    enter_function(alloc, scope, function, number)?;
    stmt_walked(alloc, functions, scope, &function.body, walk)?;
    scope.leave(outside)?;
    walk.skip(1);
    Ok(())
}

// Goes on by an item that is no function.
fn item_skipped(
    alloc: Global,
    items: &[VItem],
    item: &VItem,
    walk: &mut Walk,
) -> Result<(), AllocError>
    ensures { OnOk result (walk.new ≡ means.item_skipped item.now walk.old) }
{
    walk.skip(item_tokens(alloc, items, item)?);
    Ok(())
}

// Adds the calls in an item, which has this number and begins at the next token.
fn item_walked(
    alloc: Global,
    functions: &Functions,
    scope: &mut Scope,
    items: &[VItem],
    item: &VItem,
    number: usize,
    walk: &mut Walk,
) -> Result<(), AllocError>
    ensures tells { OnOk result (walk.new ≡ means.item_walked number item.now (numbers_in functions.now) (found scope.old) walk.old) }
    ensures keeps { OnOk result (found scope.new ≡ found scope.old) }
{
    match item {
        VItem::Signal(_) => item_skipped(alloc, items, item, walk),
        VItem::Initial(_) => item_skipped(alloc, items, item, walk),
        VItem::Process(_) => item_skipped(alloc, items, item, walk),
        VItem::Function(function) => {
            function_walked(alloc, functions, scope, function, number, walk)
        }
        VItem::Instance(_) => item_skipped(alloc, items, item, walk),
    }
}

// Adds the calls in the items of a module, of which the first one begins at the next token.
fn items_walked(
    alloc: Global,
    functions: &Functions,
    scope: &mut Scope,
    items: &[VItem],
    walk: &mut Walk,
) -> Result<(), AllocError>
    ensures { OnOk result (walk.new ≡ means.items_walked 0 items.now (numbers_in functions.now) (found scope.old) walk.old) }
{
    for number in 0..items.len() {
        item_walked(alloc, functions, scope, items, &items[number], number, walk)?;
    }
    Ok(())
}

// The walk over the functions of a module that begins at a token.
fn module_walked(alloc: Global, module: &VModule, at: u32) -> Result<Walk, AllocError>
    ensures { IfOk result (λ walk. walk ≡ means.module_walked «module».now at) }
{
    let items = module.items.as_slice();
    let functions = Functions::of(alloc, items)?;
    let mut scope = module_scope(alloc, items)?;
    let mut walk = Walk {
        from: 0,
        at: plus(at, plus(3, list_tokens(module.ports.as_slice()))),
        calls: Items::new(alloc),
    };
    items_walked(alloc, &functions, &mut scope, items, &mut walk)?;
    Ok(walk)
}

/// What is found in modules: the token behind them, and the first call of a function that leads back to the one that it stands in.
#[derive(Clone, Copy, Drop)]
pub struct Found {
    /// The token behind.
    pub end: u32,
    /// The first call that leads back.
    pub first: Option<u32>,
}

// Modules, and one more.
fn module_added(alloc: Global, module: &VModule, before: Found) -> Result<Found, AllocError>
    ensures { IfOk result (λ after. after ≡ means.module_added «module».now before) }
{
    let walk = module_walked(alloc, module, before.end)?;
    let count = short(module.items.len())?;
    let needs: Items<Need> = Items::new(alloc);
    let first = call_circles::first_broken(alloc, count, walk.calls.as_slice(), needs.as_slice())?;
    Ok(Found {
        end: plus(walk.at, 1),
        first: earlier(before.first, first),
    })
}

/// The first call of a function in modules that leads back to the function that it stands in. Or want of memory.
pub fn first_circle(alloc: Global, modules: &[VModule]) -> Result<Option<u32>, AllocError>
    ensures { IfOk result (λ r. r ≡ (means.modules_added modules.now means.nothing_found).first) }
{
    let mut found = Found {
        end: 0,
        first: None,
    };
    for module in modules {
        found = module_added(alloc, module, found)?;
    }
    Ok(found.first)
}
