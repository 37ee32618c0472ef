//! Things that are met elsewhere and stand behind others.

ghost use Rattle.std.specs.Prelude.{◌≡◌, ◌++◌, IfOk, OnOk};

use frame_things::{Numbered, Rows};
use std::alloc::{AllocError, Global};
use sv_source::Items;

// The things as a list, the latest first.
fn listed<T: Numbered + Drop>(alloc: Global, from: Rows<T>) -> Result<Items<T>, AllocError>
    ensures { IfOk result (λ list. list ≡ from) }
{
    let mut from = from;
    let mut list = Items::new(alloc);
    while let Some(item) = from.pop() {
        list.push(item)?;
    }
    Ok(list)
}

// Puts the things of a list behind others, the last one first.
fn put<T: Numbered + Drop>(to: &mut Rows<T>, list: Items<T>) -> Result<(), AllocError>
    ensures { OnOk result (to.new ≡ list ++ to.old) }
{
    let mut list = list;
    while let Some(item) = list.pop() {
        to.push(item)?;
    }
    Ok(())
}

/// Puts things behind others, in their order.
pub(crate) fn put_behind<T: Numbered + Drop>(
    alloc: Global,
    to: &mut Rows<T>,
    from: Rows<T>,
) -> Result<(), AllocError>
    ensures { OnOk result (to.new ≡ from ++ to.old) }
{
    put(to, listed(alloc, from)?)
}
