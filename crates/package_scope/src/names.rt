//! Names as numbers, and what a scope has under the number of a name.

ghost use Rattle.std.specs.Prelude.{◌≡◌, OnOk};
ghost use Rattle.package_scope.specs.Index as means;

use indexmap::{IndexMap, IndexSet};
use std::alloc::{AllocError, Global};
use sv_source::Text;

/// Names, each with a number of its own.
#[derive(Drop)]
pub struct Names {
    names: IndexSet<Text>,
}

impl Names {
    /// No names. It takes no memory.
    pub fn new(alloc: Global) -> Names {
        Names {
            names: IndexSet::new(alloc),
        }
    }

    /// Gives a name a number, if it has none.
    pub fn add(&mut self, alloc: Global, name: &Text) -> Result<(), AllocError> {
        if self.names.get_index_of(name).is_none() {
            self.names.insert(name.copy(alloc)?)?;
        }
        Ok(())
    }

    /// The number of a name, if it has one.
    pub fn number(&self, name: &Text) -> Option<usize>
        ensures { result ≡ means.number_in self.now name.now }
    {
        self.names.get_index_of(name)
    }
}

/// Numbers by a scope and the number of a name.
#[derive(Drop)]
pub struct Slots {
    slots: IndexMap<(u32, usize), u32>,
}

impl Slots {
    /// No numbers. It takes no memory.
    pub fn new(alloc: Global) -> Slots
        ensures { means.slots_in result ≡ (λ q. None) }
    {
        Slots {
            slots: IndexMap::new(alloc),
        }
    }

    /// The number under a name in a scope, whatever was there before.
    pub fn put(&mut self, scope: u32, name: usize, value: u32) -> Result<(), AllocError>
        ensures { OnOk result (means.slots_in self.new ≡ means.put_slot (means.slots_in self.old) scope name value) }
    {
        self.slots.insert((scope, name), value)?;
        Ok(())
    }

    /// The number under a name in a scope.
    pub fn find(&self, scope: u32, name: usize) -> Option<u32>
        ensures { result ≡ means.slots_in self.now (scope, name) }
    {
        self.slots.get(&(scope, name)).copied()
    }
}
