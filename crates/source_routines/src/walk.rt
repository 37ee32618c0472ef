//! The functions and tasks of a source text, in the order of the text.

ghost use Rattle.std.specs.Prelude.{◌≡◌, ◌++◌, OnOk};
ghost use Rattle.expr_type.specs.Routines as means;
ghost use Rattle.source_routines.specs.Texts.{texts, block_routines, else_routines, choice_routines, items_routines, choices_routines, package_routines, units_routines};

use crate::routine::Routine;
use std::alloc::AllocError;
use sv_source::{Boxed, Items};
use sv_tree::{CaseGenerateItem, GenerateBlock, GenerateElse, Item, PackageItem, Unit};

/// Functions and tasks that were met.
pub type Routines<'t> = Items<Routine<'t>>;

/// Those of items in a row.
#[cycle(item)]
fn items<'t>(list: &'t [Item], to: &mut Routines<'t>) -> Result<(), AllocError>
    ensures { OnOk result (texts to.new ≡ texts to.old ++ items_routines list.now) }
{
    for one in list {
        item(one, to)?;
    }
    Ok(())
}

/// Those of a generate block.
#[cycle(item)]
fn block<'t>(one: &'t GenerateBlock, to: &mut Routines<'t>) -> Result<(), AllocError>
    ensures { OnOk result (texts to.new ≡ texts to.old ++ block_routines one.now) }
{
    match one {
        GenerateBlock::Block { items: list, .. } => items(list.as_slice(), to),
        GenerateBlock::Single(inner) => item(inner.get(), to),
    }
}

/// Those of a branch of a generate `case`.
#[cycle(item)]
fn choice<'t>(one: &'t CaseGenerateItem, to: &mut Routines<'t>) -> Result<(), AllocError>
    ensures { OnOk result (texts to.new ≡ texts to.old ++ choice_routines one.now) }
{
    match one {
        CaseGenerateItem::Values { body, .. } => block(body, to),
        CaseGenerateItem::Default { body, .. } => block(body, to),
    }
}

/// Those of the branches of a generate `case`.
#[cycle(item)]
fn choices<'t>(list: &'t [CaseGenerateItem], to: &mut Routines<'t>) -> Result<(), AllocError>
    ensures { OnOk result (texts to.new ≡ texts to.old ++ choices_routines list.now) }
{
    for one in list {
        choice(one, to)?;
    }
    Ok(())
}

/// Those of the branch behind `else`, if there is one.
#[cycle(item)]
fn else_branch<'t>(
    other: &'t Option<Boxed<GenerateElse>>,
    to: &mut Routines<'t>,
) -> Result<(), AllocError>
    ensures { OnOk result (texts to.new ≡ texts to.old ++ else_routines other.now) }
{
    match other {
        None => Ok(()),
        Some(other) => block(&other.get().body, to),
    }
}

/// Those of an item of a module or an interface.
#[cycle(item)]
fn item<'t>(one: &'t Item, to: &mut Routines<'t>) -> Result<(), AllocError>
    ensures { OnOk result (texts to.new ≡ texts to.old ++ means.item_routines one.now) }
{
    match one {
        Item::Parameters(_) => Ok(()),
        Item::Typedef(_) => Ok(()),
        Item::Import(_) => Ok(()),
        Item::Function(function) => to.push(Routine::Function(function)),
        Item::Task(task) => to.push(Routine::Task(task)),
        Item::Data(_) => Ok(()),
        Item::Genvars(_) => Ok(()),
        Item::Assign(_) => Ok(()),
        Item::Always(_) => Ok(()),
        Item::Generate { items: list, .. } => items(list.as_slice(), to),
        Item::LoopGenerate { body, .. } => block(body.get(), to),
        Item::IfGenerate { body, other, .. } => {
            block(body.get(), to)?;
            else_branch(other, to)
        }
        Item::CaseGenerate { items: list, .. } => choices(list.as_slice(), to),
        Item::Modports(_) => Ok(()),
        Item::Instances(_) => Ok(()),
        Item::Empty { .. } => Ok(()),
    }
}

/// That of an item of a package, if it is one.
fn package_item<'t>(one: &'t PackageItem, to: &mut Routines<'t>) -> Result<(), AllocError>
    ensures { OnOk result (texts to.new ≡ texts to.old ++ means.package_item one.now) }
{
    match one {
        PackageItem::Import(_) => Ok(()),
        PackageItem::Typedef(_) => Ok(()),
        PackageItem::Parameters(_) => Ok(()),
        PackageItem::Function(function) => to.push(Routine::Function(function)),
        PackageItem::Task(task) => to.push(Routine::Task(task)),
        PackageItem::Empty { .. } => Ok(()),
    }
}

/// Those of a package.
fn package_items<'t>(list: &'t [PackageItem], to: &mut Routines<'t>) -> Result<(), AllocError>
    ensures { OnOk result (texts to.new ≡ texts to.old ++ package_routines list.now) }
{
    for one in list {
        package_item(one, to)?;
    }
    Ok(())
}

/// Those of a description.
fn unit<'t>(one: &'t Unit, to: &mut Routines<'t>) -> Result<(), AllocError>
    ensures { OnOk result (texts to.new ≡ texts to.old ++ means.unit_routines one.now) }
{
    match one {
        Unit::Package(package) => package_items(package.items.as_slice(), to),
        Unit::Module(module) => items(module.items.as_slice(), to),
        Unit::Interface(interface) => items(interface.items.as_slice(), to),
        Unit::Import(_) => Ok(()),
        Unit::Typedef(_) => Ok(()),
        Unit::Parameters(_) => Ok(()),
        Unit::Function(function) => to.push(Routine::Function(function)),
        Unit::Task(task) => to.push(Routine::Task(task)),
        Unit::Empty { .. } => Ok(()),
    }
}

/// Those of the descriptions of a source text.
pub fn units<'t>(list: &'t [Unit], to: &mut Routines<'t>) -> Result<(), AllocError>
    ensures { OnOk result (texts to.new ≡ texts to.old ++ units_routines list.now) }
{
    for one in list {
        unit(one, to)?;
    }
    Ok(())
}
