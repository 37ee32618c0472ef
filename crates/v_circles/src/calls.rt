//! The instances of a design as calls: each module is a routine, named by its number.

ghost use Rattle.std.specs.Prelude.{◌≡◌, ◌++◌, IfOk, OnOk};
ghost use Rattle.v_rules.specs.Tables.{numbers_in};
ghost use Rattle.v_circles.specs.Calls as means;

use crate::tokens::item_tokens;
use call_circles::Call;
use std::alloc::{AllocError, Global};
use sv_source::Items;
use v_expr_rules::plus;
use v_rules::{Modules, list_tokens};
use v_tree::{VItem, VModule};

/// The number of an item of a list as a short one. No list has so many items that it isn't. Or want of memory.
pub fn short(number: usize) -> Result<u32, AllocError>
    ensures { IfOk result (λ n. n ≡ number) }
{
    match u32::try_from(number) {
        Ok(number) => Ok(number),
        Err(_) => Err(AllocError),
    }
}

// A number that may be missing, as a short one.
fn short_if(number: Option<usize>) -> Result<Option<u32>, AllocError>
    ensures { IfOk result (λ n. n ≡ number) }
{
    match number {
        None => Ok(None),
        Some(number) => Ok(Some(short(number)?)),
    }
}

// Adds a call from a module to a module, if both have numbers.
fn add_call(
    from: Option<u32>,
    to: Option<u32>,
    at: u32,
    calls: &mut Items<Call>,
) -> Result<(), AllocError>
    ensures { OnOk result (calls.new ≡ calls.old ++ means.call_between from to at) }
{
    let Some(from) = from else {
        return Ok(());
    };
    let Some(to) = to else {
        return Ok(());
    };
    calls.push(Call {
        from: Some(from),
        to,
        at,
    })
}

// Adds the call that an item is, if it is one.
fn add_item(
    modules: &Modules,
    from: Option<u32>,
    item: &VItem,
    at: u32,
    calls: &mut Items<Call>,
) -> Result<(), AllocError>
    ensures { OnOk result (calls.new ≡ calls.old ++ means.item_calls (numbers_in modules.now) from item.now at) }
{
    match item {
        VItem::Signal(_) => Ok(()),
        VItem::Initial(_) => Ok(()),
        VItem::Process(_) => Ok(()),
        VItem::Function(_) => Ok(()),
        VItem::Instance(instance) => {
            let to = short_if(modules.number(&instance.of))?;
            add_call(from, to, at, calls)
        }
    }
}

// Walks over an item that begins at a token, and gives the token behind it.
fn item_walked(
    alloc: Global,
    modules: &Modules,
    from: Option<u32>,
    items: &[VItem],
    item: &VItem,
    at: u32,
    calls: &mut Items<Call>,
) -> Result<u32, AllocError>
    ensures { means.Walks result calls.new (means.item_walked (numbers_in modules.now) from item.now (means.walked at calls.old)) }
{
    add_item(modules, from, item, at, calls)?;
    Ok(plus(at, item_tokens(alloc, items, item)?))
}

// Walks over items of which the first one begins at a token, and gives the token behind them.
fn items_walked(
    alloc: Global,
    modules: &Modules,
    from: Option<u32>,
    items: &[VItem],
    start: u32,
    calls: &mut Items<Call>,
) -> Result<u32, AllocError>
    ensures { means.Walks result calls.new (means.items_walked (numbers_in modules.now) from items.now (means.walked start calls.old)) }
{
    let mut at = start;
    for item in items {
        at = item_walked(alloc, modules, from, items, item, at, calls)?;
    }
    Ok(at)
}

// The number of a module, if it is the first one with its name.
fn own_number(found: Option<usize>, number: usize) -> Option<usize>
    ensures { result ≡ means.own_number found number }
{
    match found {
        None => None,
        Some(found) => { if found == number { Some(found) } else { None } }
    }
}

// Walks over the module with a number, which begins at a token, and gives the token behind it.
fn module_walked(
    alloc: Global,
    modules: &Modules,
    module: &VModule,
    number: usize,
    at: u32,
    calls: &mut Items<Call>,
) -> Result<u32, AllocError>
    ensures { means.Walks result calls.new (means.module_walked (numbers_in modules.now) number «module».now (means.walked at calls.old)) }
{
    let from = short_if(own_number(modules.number(&module.name), number))?;
    let begin = plus(at, plus(3, list_tokens(module.ports.as_slice())));
    let end = items_walked(alloc, modules, from, module.items.as_slice(), begin, calls)?;
    Ok(plus(end, 1))
}

/// The instances of modules as calls. Or want of memory.
pub(crate) fn module_calls(
    alloc: Global,
    table: &Modules,
    modules: &[VModule],
) -> Result<Items<Call>, AllocError>
    ensures { IfOk result (λ cs. cs ≡ (means.modules_walked (numbers_in table.now) 0 modules.now means.nothing_walked).calls) }
{
    let mut calls = Items::new(alloc);
    let mut at = 0;
    for number in 0..modules.len() {
        at = module_walked(alloc, table, &modules[number], number, at, &mut calls)?;
    }
    Ok(calls)
}
