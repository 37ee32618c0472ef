//! At which place of a list each function stands.

ghost use Rattle.std.specs.Prelude.{◌≡◌, None, OnOk, OnErr};
ghost use Rattle.function_places.specs.Places.{Declared, places_in, put_place, without_place};

use indexmap::IndexMap;
use std::alloc::{AllocError, Global};
use sv_source::Text;

/// Where a function is declared: the instance in whose text it is, the token of its name, and its path there.
pub type WhereDeclared = (u32, u32, Text);

/// At which place of a list the first function with each declaration stands.
#[derive(Drop)]
pub struct FunctionPlaces {
    places: IndexMap<WhereDeclared, usize>,
}

impl FunctionPlaces {
    /// Those of the empty list. It takes no memory.
    pub fn new(alloc: Global) -> FunctionPlaces
        ensures { places_in result ≡ (λ d. None) }
    {
        FunctionPlaces {
            places: IndexMap::new(alloc),
        }
    }

    /// The place of the function that is declared there, if it is known.
    pub fn of(&self, declared: &WhereDeclared) -> Option<usize>
        ensures { result ≡ places_in self.now declared.now }
    {
        self.places.get(declared).copied()
    }

    /// Puts a function at a place, whatever was there before; where it wants memory, nothing is changed.
    pub fn put(&mut self, declared: WhereDeclared, place: usize) -> Result<(), AllocError>
        ensures ok { OnOk result ((d : Declared) → places_in self.new d ≡ put_place (places_in self.old) declared place d) }
        ensures err { OnErr result ((d : Declared) → places_in self.new d ≡ places_in self.old d) }
    {
        self.places.insert(declared, place)?;
        Ok(())
    }

    /// Takes away the place of the function that is declared there, if there is one.
    pub fn remove(&mut self, declared: &WhereDeclared)
        ensures { (d : Declared) → places_in self.new d ≡ without_place (places_in self.old) declared.now d }
    {
        self.places.swap_remove(declared);
    }
}
