//! The index of a table.

ghost use Rattle.std.specs.Prelude.{◌≡◌, ℕ, List, IfOk, OnOk};
ghost use Rattle.package_scope.specs.Index as means;
ghost use Rattle.package_scope.specs.Packages as packages;
ghost use Rattle.package_scope.specs.Lookup.{first_from, everywhere_from, import_from};

use crate::names::{Names, Slots};
use crate::packages::{Packages, holders_of, no_packages, starts_of};
use crate::table::{Declaration, NamedImport, Table, is_everywhere};
use crate::wildcards::{Wildcards, wildcards_of};
use std::alloc::{AllocError, Global};
use sv_source::Text;

/// What each scope has under each name.
#[derive(Drop)]
pub struct Index {
    /// The names.
    pub names: Names,
    /// The first declaration of a name in a scope.
    pub first: Slots,
    /// The first one that is visible everywhere.
    pub everywhere: Slots,
    /// The first import of a name in a scope.
    pub imports: Slots,
    /// The imports of all names in a scope.
    pub wildcards: Wildcards,
    /// The packages that imports of all names bring.
    pub packages: Packages,
}

/// The names of declarations and imports.
fn names_of(alloc: Global, table: &Table) -> Result<Names, AllocError> {
    let mut names = Names::new(alloc);
    for declaration in table.declared.as_slice() {
        names.add(alloc, &declaration.name)?;
    }
    for import in table.named.as_slice() {
        names.add(alloc, &import.name)?;
    }
    Ok(names)
}

/// Puts a number under a name that has a number.
pub fn put(
    names: &Names,
    slots: &mut Slots,
    scope: u32,
    name: &Text,
    value: usize,
) -> Result<(), AllocError>
    ensures { OnOk result (means.puts names.now slots.old slots.new scope name.now value) }
{
    let Some(number) = names.number(name) else {
        return Err(AllocError);
    };
    let Ok(value) = u32::try_from(value) else {
        return Err(AllocError);
    };
    slots.put(scope, number, value)?;
    Ok(())
}

/// Puts a number under the name of a declaration that is visible everywhere.
fn put_everywhere(
    names: &Names,
    slots: &mut Slots,
    declaration: &Declaration,
    value: usize,
) -> Result<(), AllocError>
    ensures { OnOk result (means.puts_everywhere names.now slots.old slots.new declaration.now value) }
{
    if !is_everywhere(declaration.what) {
        return Ok(());
    }
    put(names, slots, declaration.scope, &declaration.name, value)?;
    Ok(())
}

/// The first declaration of each name in each scope.
fn first_of(alloc: Global, names: &Names, list: &[Declaration]) -> Result<Slots, AllocError>
    ensures { IfOk result (λ x. (s : ℕ) (q : List ℕ) → means.under names.now x s q ≡ first_from 0 s q list.now) }
{
    let mut slots = Slots::new(alloc);
    let mut at = list.len();
    while at > 0 {
        at -= 1;
        put(names, &mut slots, list[at].scope, &list[at].name, at)?;
    }
    Ok(slots)
}

/// The first declaration of each name in each scope that is visible everywhere.
fn everywhere_of(alloc: Global, names: &Names, list: &[Declaration]) -> Result<Slots, AllocError>
    ensures { IfOk result (λ x. (s : ℕ) (q : List ℕ) → means.under names.now x s q ≡ everywhere_from 0 s q list.now) }
{
    let mut slots = Slots::new(alloc);
    let mut at = list.len();
    while at > 0 {
        at -= 1;
        put_everywhere(names, &mut slots, &list[at], at)?;
    }
    Ok(slots)
}

/// The first import of each name in each scope.
fn imports_of(alloc: Global, names: &Names, list: &[NamedImport]) -> Result<Slots, AllocError>
    ensures { IfOk result (λ x. (s : ℕ) (q : List ℕ) → means.under names.now x s q ≡ import_from 0 s q list.now) }
{
    let mut slots = Slots::new(alloc);
    let mut at = list.len();
    while at > 0 {
        at -= 1;
        put(names, &mut slots, list[at].scope, &list[at].name, at)?;
    }
    Ok(slots)
}

/// The index of a table, but for packages.
fn index_without(alloc: Global, table: &Table) -> Result<Index, AllocError>
    ensures { IfOk result (λ x. means.Indexed table.now x) }
{
    let names = names_of(alloc, table)?;
    let first = first_of(alloc, &names, table.declared.as_slice())?;
    let everywhere = everywhere_of(alloc, &names, table.declared.as_slice())?;
    let imports = imports_of(alloc, &names, table.named.as_slice())?;
    let wildcards = wildcards_of(alloc, table.wildcards.as_slice())?;
    Ok(Index {
        names,
        first,
        everywhere,
        imports,
        wildcards,
        packages: no_packages(alloc),
    })
}

/// The packages of a table.
fn packages_of(alloc: Global, table: &Table, index: &Index) -> Result<Packages, AllocError>
    requires indexed { means.Indexed table.now index.now }
    ensures { IfOk result (λ x. packages.ArePackages table.now index.now.names x) }
{
    let holders = holders_of(alloc, &index.names, table.declared.as_slice())?;
    let starts = starts_of(alloc, table, index, table.wildcards.as_slice())?;
    Ok(Packages { holders, starts })
}

/// The index of a table.
pub fn index_of(alloc: Global, table: &Table) -> Result<Index, AllocError>
    ensures indexed { IfOk result (λ x. means.Indexed table.now x) }
    ensures packaged { IfOk result (λ x. packages.ArePackages table.now x.names x.packages) }
{
    let mut index = index_without(alloc, table)?;
    index.packages = packages_of(alloc, table, &index)?;
    Ok(index)
}
