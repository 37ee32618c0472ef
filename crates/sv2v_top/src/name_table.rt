//! Tables of names, and what a name stands for (IEEE 1800-2017 clause 23.9).

ghost use Rattle.std.specs.Prelude.{◌≡◌, ◌^◌, ◌-◌, ◌<◌, ◌++◌, ◌∷◌, [], List, ℕ, OnOk};
ghost use Rattle.sv2v_top.specs.source.Lookup.{Numbers, number_in};
ghost use Rattle.v_tree.specs.Names.{position};

use indexmap::IndexMap;
use std::alloc::{AllocError, Global};
use sv_source::Text;

/// A list of names in which each is looked up by its bytes. Of equal names the first counts.
#[derive(Drop)]
pub struct Names {
    numbers: IndexMap<Text, usize>,
    next: usize,
    distinct: bool,
}

impl Names {
    /// No names.
    pub fn new(alloc: Global) -> Names
        ensures { Numbers result [] }
    {
        Names {
            numbers: IndexMap::new(alloc),
            next: 0,
            distinct: true,
        }
    }

    /// Adds a name at the end. Wants memory where there are 2^64 - 1 names.
    pub fn add(&mut self, alloc: Global, name: &Text) -> Result<(), AllocError>
        ensures { OnOk result ((names : List (List ℕ)) → Numbers self.old names → Numbers self.new (names ++ name.now ∷ [])) }
    {
        let Some(next) = self.next.checked_add(1) else {
            return Err(AllocError);
        };
        if self.numbers.get(name).is_none() {
            self.numbers.insert(name.copy(alloc)?, self.next)?;
        } else {
            self.distinct = false;
        }
        self.next = next;
        Ok(())
    }

    /// The number of a name, from 0, if it is there.
    pub fn number(&self, name: &Text) -> Option<usize>
        ensures { result ≡ number_in self.now name.now }
    {
        self.numbers.get(name).copied()
    }

    /// Whether no name stands twice.
    pub fn are_distinct(&self) -> bool
        ensures { result ≡ self.now.distinct }
    {
        self.distinct
    }

    /// The number of a name, and how many names there are where it isn't one.
    pub fn position(&self, name: &Text) -> u32
        requires { self.now.next < 2 ^ 32 }
        ensures { (names : List (List ℕ)) → Numbers self.now names → result ≡ position names name.now }
    {
        let number = self.number(name).unwrap_or(self.next);
        number.min(self.next) as u32
    }
}
