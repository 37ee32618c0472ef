//! How many signals there are in instances.

ghost use Rattle.std.specs.Prelude.{◌≡◌, [], ◌∷◌, IfOk};
ghost use Rattle.v_meaning.specs.Modules as means;
ghost use Rattle.v_processes.specs.Walks.{IsTabled};

use crate::design::Design;
use crate::naming::{items_named, own_count};
use std::alloc::AllocError;
use sv_source::Text;
use v_eval::added;
use v_tree::VItem;

// The signals of the child that an item is, if it is one, and of the instances in it, which are so deep.
#[cycle(count)]
fn count_item(design: Design<'_, '_>, depth: usize, item: &VItem) -> Result<usize, AllocError>
    requires { IsTabled design }
    ensures { IfOk result (λ n. n ≡ means.below (means.signal_count depth design.entry.modules.now) (item.now ∷ [])) }
{
    match item {
        VItem::Signal(_) => Ok(0),
        VItem::Initial(_) => Ok(0),
        VItem::Process(_) => Ok(0),
        VItem::Function(_) => Ok(0),
        VItem::Instance(instance) => signal_count(design, depth, &instance.of),
    }
}

// The signals of the children among items.
#[cycle(count)]
fn count_below(design: Design<'_, '_>, depth: usize, items: &[VItem]) -> Result<usize, AllocError>
    requires { IsTabled design }
    ensures { IfOk result (λ n. n ≡ means.below (means.signal_count depth design.entry.modules.now) items.now) }
{
    let mut count = 0;
    for item in items {
        count = added(count, count_item(design, depth, item)?)?;
    }
    Ok(count)
}

/// How many signals an instance of the module with a name has, and those in it, instances being so deep. Or want of memory: no
/// memory holds as many.
#[cycle(count)]
#[tactic(auto, using(crate::proofs::Counted::counting))]
pub fn signal_count(design: Design<'_, '_>, depth: usize, name: &Text) -> Result<usize, AllocError>
    requires { IsTabled design }
    ensures { IfOk result (λ n. n ≡ means.signal_count depth design.entry.modules.now name.now) }
{
    if depth == 0 {
        return Ok(0);
    }
    let items = items_named(design, name);
    let below = count_below(design, depth - 1, items)?;
    added(own_count(design, name), below)
}
