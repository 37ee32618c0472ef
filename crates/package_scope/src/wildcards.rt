//! Imports of all names, by the scope that they stand in.

ghost use Rattle.std.specs.Prelude.{◌≡◌, ℕ, [], filter, IfOk, OnOk};
ghost use Rattle.package_scope.specs.Index as means;
ghost use Rattle.package_scope.specs.Lookup.{stands_in};

use crate::table::WildcardImport;
use indexmap::IndexMap;
use std::alloc::{AllocError, Global};
use sv_source::Items;

/// Imports of all names by scope.
#[derive(Drop)]
pub struct Wildcards {
    lists: IndexMap<u32, Items<WildcardImport>>,
}

impl Wildcards {
    /// No imports. It takes no memory.
    fn new(alloc: Global) -> Wildcards
        ensures { means.wildcards_in result ≡ (λ s. []) }
    {
        Wildcards {
            lists: IndexMap::new(alloc),
        }
    }

    /// Adds an import behind those of its scope.
    fn push(&mut self, alloc: Global, import: WildcardImport) -> Result<(), AllocError>
        ensures { OnOk result (means.wildcards_in self.new ≡ means.with_wildcard (means.wildcards_in self.old) import) }
    {
        let scope = import.scope;
        match self.lists.get_mut(&scope) {
            Some(list) => list.push(import),
            None => {
                let mut list = Items::new(alloc);
                list.push(import)?;
                self.lists.insert(scope, list)?;
                Ok(())
            }
        }
    }

    /// The imports of a scope.
    pub fn of(&self, scope: u32) -> &[WildcardImport]
        ensures { result.now ≡ means.wildcards_in self.now scope }
    {
        match self.lists.get(&scope) {
            Some(list) => list.as_slice(),
            None => &[],
        }
    }
}

/// A copy of an import.
fn copy(alloc: Global, import: &WildcardImport) -> Result<WildcardImport, AllocError>
    ensures { IfOk result (λ i. i ≡ import.now) }
{
    Ok(WildcardImport {
        scope: import.scope,
        source: import.source.copy(alloc)?,
        source_at: import.source_at,
        at: import.at,
    })
}

/// The imports of a table, by their scopes.
pub fn wildcards_of(alloc: Global, list: &[WildcardImport]) -> Result<Wildcards, AllocError>
    ensures { IfOk result (λ x. (s : ℕ) → means.wildcards_in x s ≡ filter (stands_in s) list.now) }
{
    let mut wildcards = Wildcards::new(alloc);
    for import in list {
        wildcards.push(alloc, copy(alloc, import)?)?;
    }
    Ok(wildcards)
}
