//! The functions of a module by their names (IEEE 1364-2005 clause 12.7).

ghost use Rattle.std.specs.Prelude.{◌≡◌, ◌+◌, ◌≤◌, ℕ, List, length, IfOk, OnOk};
ghost use Rattle.v_meaning.specs.Modules.{functions as functions_in};
ghost use Rattle.v_eval.specs.Functions.{place_of};
ghost use Rattle.v_modules.specs.Places as means;

use indexmap::IndexMap;
use std::alloc::{AllocError, Global};
use sv_source::Text;
use v_tree::VItem;

// Gives a name a place.
fn put(places: &mut IndexMap<Text, usize>, name: Text, at: usize) -> Result<(), AllocError>
    ensures { OnOk result (means.places_in places.new ≡ means.place_given (means.places_in places.old) name at) }
{
    places.insert(name, at)?;
    Ok(())
}

// Gives the name of the function that an item is, if it is one, its place.
fn add_item(
    alloc: Global,
    places: &mut IndexMap<Text, usize>,
    item: &VItem,
    at: usize,
) -> Result<(), AllocError>
    ensures { OnOk result (means.places_in places.new ≡ means.item_placed at item.now (means.places_in places.old)) }
{
    match item {
        VItem::Signal(_) => Ok(()),
        VItem::Initial(_) => Ok(()),
        VItem::Process(_) => Ok(()),
        VItem::Function(function) => put(places, function.name.copy(alloc)?, at),
        VItem::Instance(_) => Ok(()),
    }
}

/// Where the functions among items stand; of two with one name the first one counts. Or want of memory.
#[tactic(auto, using(crate::proofs::Placing::placing))]
pub fn functions_of(alloc: Global, items: &[VItem]) -> Result<IndexMap<Text, usize>, AllocError>
    ensures { IfOk result (λ m. means.places_in m ≡ place_of 0 items.now) }
{
    let mut places = IndexMap::new(alloc);
    let mut at = items.len();
    while at > 0 {
        at -= 1;
        add_item(alloc, &mut places, &items[at], at)?;
    }
    Ok(places)
}

// 1 for a function, 0 for any other item.
fn one_function(item: &VItem) -> usize
    ensures value { result ≡ means.one_function item.now }
    ensures small { result ≤ 1 }
{
    match item {
        VItem::Signal(_) => 0,
        VItem::Initial(_) => 0,
        VItem::Process(_) => 0,
        VItem::Function(_) => 1,
        VItem::Instance(_) => 0,
    }
}

/// How many functions there are among items.
#[tactic(auto, using(crate::proofs::Placing::counting))]
pub fn function_count(items: &[VItem]) -> usize
    ensures { result ≡ length (functions_in items.now) }
{
    let mut count = 0;
    for item in items {
        count += one_function(item);
    }
    count
}
