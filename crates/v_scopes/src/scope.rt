//! The names that are declared in a place.

ghost use Rattle.std.specs.Prelude.{◌≡◌, ◌++◌, ◌∷◌, [], None, Some, length, take, drop, OnOk};
ghost use Rattle.v_scopes.specs.Env.{found, given, before, hidden_in, undone, of_slot};

use crate::entry::Entry;
use indexmap::IndexMap;
use std::alloc::{AllocError, Global};
use sv_source::{Items, Text};

/// What a name stood for before a declaration.
#[derive(Drop)]
pub struct Hidden {
    /// The name.
    pub name: Text,
    /// What it stood for, if anything.
    pub entry: Option<Entry>,
}

/// What names stood for before declarations, in the order of these.
pub type HiddenNames = Items<Hidden>;

/// The names that are declared in a place, and what declarations hide.
#[derive(Drop)]
pub struct Scope {
    names: IndexMap<Text, Option<Entry>>,
    hidden: HiddenNames,
}

// What a slot holds.
fn of_slot(slot: Option<Option<Entry>>) -> Option<Entry>
    ensures { result ≡ of_slot slot }
{
    match slot {
        None => None,
        Some(entry) => entry,
    }
}

impl Scope {
    /// A scope without names.
    pub fn new(alloc: Global) -> Scope
        ensures empty { found result ≡ (λ _. None) }
        ensures none { hidden_in result ≡ [] }
    {
        Scope {
            names: IndexMap::new(alloc),
            hidden: HiddenNames::new(alloc),
        }
    }

    /// What a name stands for, if anything.
    pub fn find(&self, name: &Text) -> Option<Entry>
        ensures { result ≡ found self.now name.now }
    {
        of_slot(self.names.get(name).copied())
    }

    // Puts what a name stands for.
    fn put(&mut self, name: Text, entry: Option<Entry>) -> Result<(), AllocError>
        ensures puts { OnOk result (found self.new ≡ given (found self.old) name entry) }
        ensures kept { hidden_in self.new ≡ hidden_in self.old }
    {
        self.names.insert(name, entry)?;
        Ok(())
    }

    /// Declares a name, which hides what it stood for. Or want of memory.
    pub fn declare(&mut self, alloc: Global, name: &Text, entry: Entry) -> Result<(), AllocError>
        ensures declares { OnOk result (found self.new ≡ given (found self.old) name.now (Some entry)) }
        ensures hides { OnOk result (hidden_in self.new ≡ hidden_in self.old ++ (before (found self.old) name.now ∷ [])) }
    {
        let old = self.find(name);
        self.hidden.push(Hidden {
            name: name.copy(alloc)?,
            entry: old,
        })?;
        self.put(name.copy(alloc)?, Some(entry))
    }

    /// How many declarations hide something.
    pub fn mark(&self) -> usize
        ensures { result ≡ length (hidden_in self.now) }
    {
        self.hidden.len()
    }

    /// Takes back the declarations behind a mark. Or want of memory.
    pub fn leave(&mut self, mark: usize) -> Result<(), AllocError>
        ensures undoes { OnOk result (found self.new ≡ undone (drop mark (hidden_in self.old)) (found self.old)) }
        ensures kept { OnOk result (hidden_in self.new ≡ take mark (hidden_in self.old)) }
    {
        while self.hidden.len() > mark {
            match self.hidden.pop() {
                None => return Ok(()),
                Some(last) => self.put(last.name, last.entry)?,
            }
        }
        Ok(())
    }
}
