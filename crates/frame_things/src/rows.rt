//! Things that are met one after another, found by their numbers: a later one hides an earlier one with its number.

ghost use Rattle.std.specs.Prelude.{◌≡◌, ◌-◌, ℕ, [], ◌∷◌, nat_eq, length, drop, IsSome, MatchOption, OnOk, OnErr};
ghost use Rattle.std.specs.Option.{option_copied};
ghost use Rattle.indexmap.specs.IndexMap.{get};
ghost use Rattle.frame_things.specs.Places.{first_by};
ghost use Rattle.frame_things.specs.Rows.{uncovered};

use crate::numbered::Numbered;
use indexmap::IndexMap;
use std::alloc::{AllocError, Global};
use std::marker::Model;
use sv_source::Items;

/// A thing, and at which place the one stands that it hides.
#[derive(Drop)]
pub struct Row<T> {
    /// The thing.
    pub item: T,
    /// The place of the last one before it with its number.
    pub hidden: Option<usize>,
}

/// Things by their numbers. Contracts see them as a list, the latest first.
pub struct Rows<T: Numbered> {
    rows: Items<Row<T>>,
    latest: IndexMap<u32, usize>,
}

impl<T: Numbered + Drop> Drop for Rows<T> {
    fn drop(self) {
        let Rows { rows: _, latest: _ } = self;
    }
}

impl<T: Numbered> Model for Rows<T> {
    ghost use Rattle.std.specs.Prelude.{◌≡◌, ℕ, List, map, reverse, nat_eq};
    ghost use Rattle.std.specs.Coded.{coded_list};
    ghost use Rattle.indexmap.specs.IndexMap.{get};

    ghost Value = { List T };

    ghost coded = { coded_list T.code };

    ghost use Rattle.frame_things.specs.Rows.{item_of, place_of, Linked};

    ghost view = { λ x. map item_of (reverse x.rows) };

    ghost invariant = { λ x. ((n : ℕ) → get nat_eq x.latest n ≡ place_of T.number n (reverse x.rows)) × Linked T.number (reverse x.rows) };
}

/// Puts back at a number the place that was hidden, or takes the number away.
fn uncover(latest: &mut IndexMap<u32, usize>, number: u32, hidden: Option<usize>)
    requires { IsSome (get nat_eq latest.old number) }
    ensures { (n : ℕ) → get nat_eq latest.new n ≡ uncovered (get nat_eq latest.old) number hidden n }
{
    match hidden {
        None => {
            latest.swap_remove(&number);
        }
        Some(place) => {
            if let Some(latest) = latest.get_mut(&number) {
                *latest = place;
            }
        }
    }
}

impl<T: Numbered + Drop> Rows<T> {
    /// No things. It takes no memory.
    pub fn new(alloc: Global) -> Rows<T>
        ensures { result ≡ [] }
    {
        Rows {
            rows: Items::new(alloc),
            latest: IndexMap::new(alloc),
        }
    }

    /// How many things there are.
    pub fn len(&self) -> usize
        ensures { result ≡ length self.now }
    {
        self.rows.len()
    }

    /// The latest thing with a number, if there is one.
    pub fn find(&self, number: u32) -> Option<&T>
        ensures { option_copied result ≡ first_by (λ x. nat_eq (T.number x) number) self.now }
    {
        match self.latest.get(&number) {
            None => None,
            Some(place) => match self.rows.get(*place) {
                None => None,
                Some(row) => Some(&row.item),
            },
        }
    }

    /// Adds a thing, or wants memory and leaves those that are there.
    pub fn push(&mut self, item: T) -> Result<(), AllocError>
        ensures ok { OnOk result (self.new ≡ item ∷ self.old) }
        ensures err { OnErr result (self.new ≡ self.old) }
    {
        let number = item.number();
        let place = self.rows.len();
        let hidden = self.latest.get(&number).copied();
        self.rows.push(Row { item, hidden })?;
        match self.latest.insert(number, place) {
            Ok(_) => Ok(()),
            Err(_) => {
                self.rows.pop();
                Err(AllocError)
            }
        }
    }

    /// Takes the latest thing away, if there is one.
    pub fn pop(&mut self) -> Option<T>
        ensures { MatchOption result ((self.old ≡ []) × (self.new ≡ [])) (λ x. self.old ≡ x ∷ self.new) }
    {
        match self.rows.pop() {
            None => None,
            Some(row) => {
                let Row { item, hidden } = row;
                uncover(&mut self.latest, item.number(), hidden);
                Some(item)
            }
        }
    }

    /// Takes the latest things away but for so many.
    pub fn cut(&mut self, len: usize)
        ensures { self.new ≡ drop (length self.old - len) self.old }
    {
        while self.len() > len {
            self.pop();
        }
    }
}
