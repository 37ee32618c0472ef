//! What happens to names in a whole source text.

ghost use Rattle.std.specs.Prelude.{◌≡◌, OnOk, IfOk};
ghost use Rattle.name_events.specs.Items as means;

use crate::declarations::{import_items, parameters, typedef};
use crate::events::{Declared, Events, ScopeKind};
use crate::functions::{function, task};
use crate::items::items;
use crate::ports::header;
use crate::statements::{closes, labelled, opens, repeats};
use crate::steps::declares_outside;
use std::alloc::{AllocError, Global};
use sv_source::Items;
use sv_tree::{Module, Package, PackageItem, SourceTree, Unit};

/// A module or (`inside`) an interface.
fn module(
    kind: ScopeKind,
    what: Declared,
    inside: bool,
    one: &Module,
    to: &mut Events,
) -> Result<(), AllocError>
    ensures { OnOk result (to.new ≡ means.module_events kind what inside one.now to.old) }
{
    opens(kind, one.keyword, labelled(one.end, one.end_label), to)?;
    declares_outside(what, one.header.name, to)?;
    header(&one.header, to)?;
    items(inside, one.items.as_slice(), to)?;
    repeats(one.header.name, one.end_label, to)?;
    closes(to)
}

/// An item of a package.
fn package_item(item: &PackageItem, to: &mut Events) -> Result<(), AllocError>
    ensures { OnOk result (to.new ≡ means.package_item item.now to.old) }
{
    match item {
        PackageItem::Import(import) => import_items(import.items.as_slice(), to),
        PackageItem::Typedef(declaration) => typedef(declaration, to),
        PackageItem::Parameters(declaration) => parameters(declaration.bodies.as_slice(), to),
        PackageItem::Function(routine) => function(routine, to),
        PackageItem::Task(routine) => task(routine, to),
        PackageItem::Empty { .. } => Ok(()),
    }
}

/// The items of a package.
fn package_items(list: &[PackageItem], to: &mut Events) -> Result<(), AllocError>
    ensures { OnOk result (to.new ≡ means.package_items list.now to.old) }
{
    for item in list {
        package_item(item, to)?;
    }
    Ok(())
}

/// A package.
fn package(one: &Package, to: &mut Events) -> Result<(), AllocError>
    ensures { OnOk result (to.new ≡ means.package_events one.now to.old) }
{
    let last = labelled(one.end, one.end_label);
    opens(ScopeKind::Package, one.keyword, last, to)?;
    declares_outside(Declared::Package, one.name, to)?;
    package_items(one.items.as_slice(), to)?;
    repeats(one.name, one.end_label, to)?;
    closes(to)
}

/// A description of a source text.
fn unit(one: &Unit, to: &mut Events) -> Result<(), AllocError>
    ensures { OnOk result (to.new ≡ means.unit_events one.now to.old) }
{
    match one {
        Unit::Package(declaration) => package(declaration, to),
        Unit::Module(declaration) => {
            module(ScopeKind::Module, Declared::Module, false, declaration, to)
        }
        Unit::Interface(declaration) => module(
            ScopeKind::Interface,
            Declared::Interface,
            true,
            declaration,
            to,
        ),
        Unit::Import(import) => import_items(import.items.as_slice(), to),
        Unit::Typedef(declaration) => typedef(declaration, to),
        Unit::Parameters(declaration) => parameters(declaration.bodies.as_slice(), to),
        Unit::Function(routine) => function(routine, to),
        Unit::Task(routine) => task(routine, to),
        Unit::Empty { .. } => Ok(()),
    }
}

/// The descriptions of a source text.
fn units(list: &[Unit], to: &mut Events) -> Result<(), AllocError>
    ensures { OnOk result (to.new ≡ means.units list.now to.old) }
{
    for one in list {
        unit(one, to)?;
    }
    Ok(())
}

/// What happens to names in a source text, or want of memory. The names of declarations stand in the order of their tokens,
/// scopes in that of their first tokens, and each use between the declarations before and behind it.
pub fn events_of(alloc: Global, tree: &SourceTree) -> Result<Events, AllocError>
    ensures { IfOk result (λ es. es ≡ means.events_of tree.now) }
{
    let mut to = Items::new(alloc);
    units(tree.units.as_slice(), &mut to)?;
    Ok(to)
}
