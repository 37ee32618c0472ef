//! Which scopes declare each name, and from where on each scope imports all names of a package.

ghost use Rattle.std.specs.Prelude.{◌≡◌, ℕ, [], List, IfOk, OnOk};
ghost use Rattle.package_scope.specs.Index.{Indexed, slots_in};
ghost use Rattle.package_scope.specs.Packages as means;

use crate::clashes::sooner;
use crate::index::Index;
use crate::meaning::package_scope;
use crate::names::{Names, Slots};
use crate::table::{Declaration, Table, WildcardImport};
use indexmap::IndexMap;
use std::alloc::{AllocError, Global};
use sv_source::Items;

/// The scopes that declare names, by the numbers of the names.
#[derive(Drop)]
pub struct Holders {
    lists: IndexMap<usize, Items<u32>>,
}

impl Holders {
    /// None. It takes no memory.
    pub fn new(alloc: Global) -> Holders
        ensures { means.holders_in result ≡ (λ n. []) }
    {
        Holders {
            lists: IndexMap::new(alloc),
        }
    }

    /// Adds a scope behind those that declare a name.
    fn push(&mut self, alloc: Global, name: usize, scope: u32) -> Result<(), AllocError>
        ensures { OnOk result (means.holders_in self.new ≡ means.with_holder (means.holders_in self.old) name scope) }
    {
        match self.lists.get_mut(&name) {
            Some(list) => list.push(scope),
            None => {
                let mut list = Items::new(alloc);
                list.push(scope)?;
                self.lists.insert(name, list)?;
                Ok(())
            }
        }
    }

    /// The scopes that declare a name.
    fn of(&self, name: usize) -> &[u32]
        ensures { result.now ≡ means.holders_in self.now name }
    {
        match self.lists.get(&name) {
            Some(list) => list.as_slice(),
            None => &[],
        }
    }

    /// The scopes that declare a name, if it has a number.
    pub fn under(&self, number: Option<usize>) -> &[u32]
        ensures { result.now ≡ means.of_number (means.holders_in self.now) number }
    {
        match number {
            Some(number) => self.of(number),
            None => &[],
        }
    }
}

/// What is kept of packages.
#[derive(Drop)]
pub struct Packages {
    /// The scopes that declare each name.
    pub holders: Holders,
    /// The earliest import of all names of a package in a scope, by that scope and the package's.
    pub starts: Slots,
}

/// Nothing of them. It takes no memory.
pub fn no_packages(alloc: Global) -> Packages {
    Packages {
        holders: Holders::new(alloc),
        starts: Slots::new(alloc),
    }
}

/// The scopes that declare each name.
pub fn holders_of(alloc: Global, names: &Names, list: &[Declaration]) -> Result<Holders, AllocError>
    ensures { IfOk result (λ x. (q : List ℕ) → means.holders_under names.now x q ≡ means.holders_from q list.now) }
{
    let mut holders = Holders::new(alloc);
    for declaration in list {
        let Some(number) = names.number(&declaration.name) else {
            return Err(AllocError);
        };
        holders.push(alloc, number, declaration.scope)?;
    }
    Ok(holders)
}

/// Puts an import of all names of a package that is there under its scope and the package's.
fn put_start(
    table: &Table,
    index: &Index,
    starts: &mut Slots,
    import: &WildcardImport,
) -> Result<(), AllocError>
    requires indexed { Indexed table.now index.now }
    ensures { OnOk result (means.puts_start table.now starts.old starts.new import.now) }
{
    let Some(package) = package_scope(table, index, &import.source, import.source_at) else {
        return Ok(());
    };
    let known = starts.find(import.scope, package as usize);
    starts.put(import.scope, package as usize, sooner(import.at, known))?;
    Ok(())
}

/// The earliest import of all names of each package in each scope.
pub fn starts_of(
    alloc: Global,
    table: &Table,
    index: &Index,
    list: &[WildcardImport],
) -> Result<Slots, AllocError>
    requires indexed { Indexed table.now index.now }
    ensures { IfOk result (λ x. (s p : ℕ) → slots_in x (s, p) ≡ means.start_from table.now s p list.now) }
{
    let mut starts = Slots::new(alloc);
    let mut at = list.len();
    while at > 0 {
        at -= 1;
        put_start(table, index, &mut starts, &list[at])?;
    }
    Ok(starts)
}
