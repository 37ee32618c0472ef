//! Packages, modules and interfaces, and the whole of a source text.

ghost use Rattle.std.specs.Prelude.{◌≡◌, IfOk};
ghost use Rattle.sv_build.specs.Items as means;

use crate::declarations::{import, parameters, typedef};
use crate::functions::{function, task};
use crate::items::items;
use crate::ports::header;
use crate::rows;
use crate::words::{label, lifetime};
use expr_build::{Piece, each, kid, kids, row, token};
use ll_engine::Tree;
use pairs::both;
use std::alloc::{AllocError, Global};
use sv_tree::{Module, Package, PackageItem, Unit, Units};

/// Items of a package.
struct PackageItemPiece;

impl Piece for PackageItemPiece {
    ghost use Rattle.sv_build.specs.Items.{package_item_of};

    type Value = PackageItem;

    ghost value = { package_item_of };

    fn piece(alloc: Global, tree: &Tree) -> Result<PackageItem, AllocError> {
        let first = kid(tree, 0);
        match row(tree) {
            rows::IMPORT_PACKAGE_ITEM => Ok(PackageItem::Import(import(alloc, first)?)),
            rows::TYPEDEF_PACKAGE_ITEM => Ok(PackageItem::Typedef(typedef(alloc, first)?)),
            rows::PARAMETERS_PACKAGE_ITEM => {
                let declaration = parameters(alloc, first, token(tree, 1))?;
                Ok(PackageItem::Parameters(declaration))
            }
            rows::FUNCTION_PACKAGE_ITEM => Ok(PackageItem::Function(function(alloc, first)?)),
            rows::TASK_PACKAGE_ITEM => Ok(PackageItem::Task(task(alloc, first)?)),
            _ => Ok(PackageItem::Empty {
                semicolon: token(tree, 0),
            }),
        }
    }
}

/// A package.
fn package(alloc: Global, tree: &Tree) -> Result<Package, AllocError>
    ensures { IfOk result (λ p. p ≡ means.package_of tree.now) }
{
    let items = each::<PackageItemPiece>(alloc, kids(kid(tree, 4)))?;
    Ok(Package {
        keyword: token(tree, 0),
        lifetime: lifetime(kid(tree, 1)),
        name: token(tree, 2),
        semicolon: token(tree, 3),
        items,
        end: token(tree, 5),
        end_label: label(kid(tree, 6)),
    })
}

/// A module or an interface.
fn module(alloc: Global, tree: &Tree) -> Result<Module, AllocError>
    ensures { IfOk result (λ m. m ≡ means.module_of tree.now) }
{
    let header = header(alloc, kid(tree, 1));
    let (header, items) = both(header, items(alloc, kid(tree, 2)))?;
    Ok(Module {
        keyword: token(tree, 0),
        header,
        items,
        end: token(tree, 3),
        end_label: label(kid(tree, 4)),
    })
}

/// Descriptions.
struct UnitPiece;

impl Piece for UnitPiece {
    ghost use Rattle.sv_build.specs.Items.{unit_of};

    type Value = Unit;

    ghost value = { unit_of };

    fn piece(alloc: Global, tree: &Tree) -> Result<Unit, AllocError> {
        let first = kid(tree, 0);
        match row(tree) {
            rows::PACKAGE_UNIT => Ok(Unit::Package(package(alloc, first)?)),
            rows::MODULE_UNIT => Ok(Unit::Module(module(alloc, first)?)),
            rows::INTERFACE_UNIT => Ok(Unit::Interface(module(alloc, first)?)),
            rows::IMPORT_UNIT => Ok(Unit::Import(import(alloc, first)?)),
            rows::TYPEDEF_UNIT => Ok(Unit::Typedef(typedef(alloc, first)?)),
            rows::PARAMETERS_UNIT => {
                let declaration = parameters(alloc, first, token(tree, 1))?;
                Ok(Unit::Parameters(declaration))
            }
            rows::FUNCTION_UNIT => Ok(Unit::Function(function(alloc, first)?)),
            rows::TASK_UNIT => Ok(Unit::Task(task(alloc, first)?)),
            _ => Ok(Unit::Empty {
                semicolon: token(tree, 0),
            }),
        }
    }
}

/// The descriptions of a source text.
pub fn units(alloc: Global, tree: &Tree) -> Result<Units, AllocError>
    ensures { IfOk result (λ us. us ≡ means.units_of tree.now) }
{
    each::<UnitPiece>(alloc, kids(tree))
}
