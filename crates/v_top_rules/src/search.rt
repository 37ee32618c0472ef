//! A search for what stands below modules, from those without instances up. It promises nothing: what it finds is checked.

use crate::nodes::Node;
use crate::sums::{Sum, Sums, first_round, node_sum};
use std::alloc::{AllocError, Global};
use sv_source::{Items, at};

/// Sums that were found, and the order in which they were.
#[derive(Drop)]
pub struct Found {
    /// Of each module its place in the order, from 1 on; 0 where it has none.
    pub places: Items<usize>,
    /// Of each module what stands below it.
    pub sums: Sums,
}

// An instance of a module.
#[derive(Clone, Copy, Drop)]
struct Holder {
    // The module that holds it.
    number: usize,
    // The instance of the same module before it.
    before: Option<usize>,
}

// The instances of each module, as lists, and how many instances of each module are left to be looked at.
#[derive(Drop)]
struct Holders {
    last: Items<Option<usize>>,
    all: Items<Holder>,
    left: Items<usize>,
}

// So many items of one value.
fn filled<T: Copy + Drop>(alloc: Global, count: usize, value: T) -> Result<Items<T>, AllocError> {
    let mut items = Items::new(alloc);
    for _ in 0..count {
        items.push(value)?;
    }
    Ok(items)
}

// Puts an item where there is one.
fn put<T: Copy + Drop>(items: &mut Items<T>, number: usize, item: T) {
    if number < items.len() {
        items.set(number, item);
    }
}

// A number, 0 where there is none.
fn number_at(numbers: &[usize], number: usize) -> usize {
    match at(numbers, number) {
        None => 0,
        Some(found) => *found,
    }
}

impl Holders {
    // Adds an instance of a module in another one.
    fn add(&mut self, holder: usize, of: usize) -> Result<(), AllocError> {
        let before = match at(self.last.as_slice(), of) {
            None => return Ok(()),
            Some(before) => *before,
        };
        put(&mut self.last, of, Some(self.all.len()));
        let left = number_at(self.left.as_slice(), holder).saturating_add(1);
        put(&mut self.left, holder, left);
        self.all.push(Holder {
            number: holder,
            before,
        })
    }

    // Adds the instances in a module.
    fn add_all(&mut self, holder: usize, below: &[Option<usize>]) -> Result<(), AllocError> {
        for of in below {
            if let Some(of) = of {
                self.add(holder, *of)?;
            }
        }
        Ok(())
    }

    fn of(alloc: Global, nodes: &[Node]) -> Result<Holders, AllocError> {
        let mut holders = Holders {
            last: filled(alloc, nodes.len(), None)?,
            all: Items::new(alloc),
            left: filled(alloc, nodes.len(), 0)?,
        };
        for number in 0..nodes.len() {
            holders.add_all(number, nodes[number].below.as_slice())?;
        }
        Ok(holders)
    }

    // Takes an instance as looked at, and adds its holder to those that are ready if it was the last one there.
    fn take(&mut self, holder: usize, ready: &mut Items<usize>) -> Result<(), AllocError> {
        let left = number_at(self.left.as_slice(), holder).saturating_sub(1);
        put(&mut self.left, holder, left);
        if left == 0 {
            return ready.push(holder);
        }
        Ok(())
    }

    // Takes all instances of a module as looked at.
    fn take_all(&mut self, of: usize, ready: &mut Items<usize>) -> Result<(), AllocError> {
        let mut next = match at(self.last.as_slice(), of) {
            None => None,
            Some(last) => *last,
        };
        for _ in 0..self.all.len() {
            let Some(number) = next else {
                break;
            };
            let Some(holder) = at(self.all.as_slice(), number) else {
                break;
            };
            let holder = *holder;
            next = holder.before;
            self.take(holder.number, ready)?;
        }
        Ok(())
    }

    // The modules without instances of modules that are there.
    fn ready(&self, alloc: Global) -> Result<Items<usize>, AllocError> {
        let mut ready = Items::new(alloc);
        for number in 0..self.left.len() {
            if number_at(self.left.as_slice(), number) == 0 {
                ready.push(number)?;
            }
        }
        Ok(ready)
    }
}

/// Looks for what stands below modules. Each instance is looked at once. Or want of memory.
pub fn search(alloc: Global, nodes: &[Node]) -> Result<Found, AllocError> {
    let mut holders = Holders::of(alloc, nodes)?;
    let mut ready = holders.ready(alloc)?;
    let mut places = filled(alloc, nodes.len(), 0)?;
    let mut sums: Items<Sum> = first_round(alloc, nodes)?;
    for place in 0..nodes.len() {
        let Some(number) = ready.pop() else {
            break;
        };
        put(&mut places, number, place.saturating_add(1));
        if let Some(node) = at(nodes, number) {
            let sum = node_sum(node, sums.as_slice());
            put(&mut sums, number, sum);
        }
        holders.take_all(number, &mut ready)?;
    }
    Ok(Found { places, sums })
}
