//! At which places of a list things stand, by their numbers.

ghost use Rattle.std.specs.Prelude.{◌≡◌, ℕ, None, IfOk, OnOk};
ghost use Rattle.frame_things.specs.Places.{place_from, places_in, put_place};

use crate::numbered::Numbered;
use indexmap::IndexMap;
use std::alloc::{AllocError, Global};

/// At which place of a list the first thing with each number stands.
pub struct Places {
    places: IndexMap<u32, usize>,
}

impl Drop for Places {
    fn drop(self) {
        let Places { places: _ } = self;
    }
}

impl Places {
    /// Those of the empty list. It takes no memory.
    pub fn new(alloc: Global) -> Places
        ensures { places_in result ≡ (λ n. None) }
    {
        Places {
            places: IndexMap::new(alloc),
        }
    }

    /// The place of a number, whatever was there before.
    pub fn put(&mut self, number: u32, place: usize) -> Result<(), AllocError>
        ensures { OnOk result (places_in self.new ≡ put_place (places_in self.old) number place) }
    {
        self.places.insert(number, place)?;
        Ok(())
    }

    /// The place of the first thing with a number, if there is one.
    pub fn of(&self, number: u32) -> Option<usize>
        ensures { result ≡ places_in self.now number }
    {
        self.places.get(&number).copied()
    }
}

/// At which place of a list the first thing with each number stands.
pub fn places_of<T: Numbered>(alloc: Global, list: &[T]) -> Result<Places, AllocError>
    ensures { IfOk result (λ x. (n : ℕ) → places_in x n ≡ place_from T.number 0 n list.now) }
{
    let mut places = Places::new(alloc);
    let mut at = list.len();
    while at > 0 {
        at -= 1;
        places.put(list[at].number(), at)?;
    }
    Ok(places)
}
