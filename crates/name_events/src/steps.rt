//! Single events.

ghost use Rattle.std.specs.Prelude.{◌≡◌, OnOk};
ghost use Rattle.name_events.specs.Steps as means;

use crate::events::{Declared, Event, Events, Role, SelectPath};
use std::alloc::AllocError;

/// Puts an event where it is one.
pub fn put_if(holds: bool, event: Event, to: &mut Events) -> Result<(), AllocError>
    ensures { OnOk result (to.new ≡ means.put_if holds event to.old) }
{
    if holds {
        to.push(event)?;
    }
    Ok(())
}

/// A break that the tree alone shows.
pub fn wrong(at: u32, to: &mut Events) -> Result<(), AllocError>
    ensures { OnOk result (to.new ≡ means.wrong at to.old) }
{
    to.push(Event::Wrong { at })
}

/// The use of a name alone.
pub fn uses(name: u32, role: Role, to: &mut Events) -> Result<(), AllocError>
    ensures { OnOk result (to.new ≡ means.uses name role to.old) }
{
    to.push(Event::Uses {
        package: None,
        name,
        role,
        path: SelectPath::Alone,
    })
}

/// A declaration in the scope that is open.
pub fn declares(what: Declared, name: u32, last: u32, to: &mut Events) -> Result<(), AllocError>
    ensures { OnOk result (to.new ≡ means.declares what name last to.old) }
{
    to.push(Event::Declares {
        what,
        name,
        last,
        outside: false,
    })
}

/// A declaration in the scope around the one that is open.
pub fn declares_outside(what: Declared, name: u32, to: &mut Events) -> Result<(), AllocError>
    ensures { OnOk result (to.new ≡ means.declares_outside what name to.old) }
{
    to.push(Event::Declares {
        what,
        name,
        last: name,
        outside: true,
    })
}
