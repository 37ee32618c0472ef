//! The order, by a walk from each number to what it needs.

ghost use Rattle.std.specs.Prelude.{◌≡◌, ℕ, ◌-◌, ◌<◌, ◌≤◌, true, false, [], length, take, replicate, slice_index_or, IfOk, OnOk};
ghost use Rattle.row_machine.specs.Valuation.{Member};
ghost use Rattle.peel.specs.Peeled.{needed, IsPeeled};
ghost use Rattle.peel.specs.Steps as spec;
ghost use Rattle.peel.specs.Steps.{mark_in, NoneOpen, OpenAt, Met, Going, AreHeld, StepsTo, last_of};
ghost use Rattle.peel.specs.declared.peeling.Mark.TheVariants.{Fresh, Done};

use sqlite_items::Items;
use std::alloc::{AllocError, Global};

/// Numbers in an order in which each needs only earlier ones, and those that have no place in such an order.
#[derive(Debug, Drop)]
pub struct Peeled {
    /// The order.
    pub order: Items<u32>,
    /// Those left, in ascending order: each needs itself or another one of them.
    pub left: Items<u32>,
}

/// How far a number has come.
#[derive(Clone, Copy)]
pub enum Mark {
    /// Nothing asked for it yet.
    Fresh,
    /// It waits for one that it needs.
    Held,
    /// It stands in the order.
    Done,
}

/// A walk along needs that are open.
#[derive(Drop)]
pub struct Peeling {
    /// Of each number how far it has come.
    pub marks: Items<Mark>,
    /// Of each number how many of those that it needs were seen to be done.
    pub seen: Items<usize>,
    /// Numbers each of which waits for the next one.
    pub path: Items<u32>,
    /// Those that are done.
    pub order: Items<u32>,
}

fn mark_of(marks: &[Mark], p: u32) -> Mark
    requires { p < length marks.now }
    ensures { result ≡ mark_in marks.now p }
{
    marks[p as usize]
}

fn is_fresh(mark: Mark) -> bool
    ensures { result ≡ spec.is_fresh mark }
{
    match mark {
        Mark::Fresh => true,
        Mark::Held => false,
        Mark::Done => false,
    }
}

fn is_held(mark: Mark) -> bool
    ensures { result ≡ spec.is_held mark }
{
    match mark {
        Mark::Fresh => false,
        Mark::Held => true,
        Mark::Done => false,
    }
}

fn needs_of(needs: &[Items<u32>], p: u32) -> &[u32]
    requires { p < length needs.now }
    ensures { result.now ≡ needed needs.now p }
{
    needs[p as usize].as_slice()
}

// Whether a number is below the count and not done.
fn is_open(marks: &[Mark], p: u32) -> bool
    ensures yes { result ≡ true → (p < length marks.now) × (mark_in marks.now p ≡ Done → ⊥) }
    ensures no { result ≡ false → p < length marks.now → mark_in marks.now p ≡ Done }
{
    match marks.get(p as usize) {
        None => false,
        Some(Mark::Fresh) => true,
        Some(Mark::Held) => true,
        Some(Mark::Done) => false,
    }
}

// The place of the first number that is open, or the length of the list.
fn first_open(marks: &[Mark], list: &[u32], from: usize) -> usize
    requires start { from ≤ length list.now }
    requires before { NoneOpen marks.now list.now from }
    ensures within { result ≤ length list.now }
    ensures before { NoneOpen marks.now list.now result }
    ensures here { result < length list.now → OpenAt marks.now list.now result }
{
    for k in from..list.len() {
        if is_open(marks, list[k]) {
            return k;
        }
    }
    list.len()
}

fn drop_last(path: &mut Items<u32>)
    ensures { path.new ≡ take (length path.old - 1) path.old }
{
    let _ = path.pop();
}

impl Peeling {
    fn start(alloc: Global, count: usize) -> Result<Peeling, AllocError>
        ensures marks { IfOk result (λ s. s.marks ≡ replicate count Fresh) }
        ensures seen { IfOk result (λ s. s.seen ≡ replicate count 0) }
        ensures path { IfOk result (λ s. s.path ≡ []) }
        ensures order { IfOk result (λ s. s.order ≡ []) }
    {
        let mut marks = Items::new(alloc);
        let mut seen = Items::new(alloc);
        for _p in 0..count {
            marks.push(Mark::Fresh)?;
            seen.push(0)?;
        }
        Ok(Peeling {
            marks,
            seen,
            path: Items::new(alloc),
            order: Items::new(alloc),
        })
    }

    // Puts p at the end of the path.
    fn hold(&mut self, p: u32) -> Result<(), AllocError>
        requires { p < length self.old.marks }
        ensures { OnOk result (self.new ≡ spec.held_too self.old p) }
    {
        self.marks.set(p as usize, Mark::Held);
        self.path.push(p)
    }

    // Moves p from the end of the path to the order.
    fn finish(&mut self, p: u32) -> Result<(), AllocError>
        requires { p < length self.old.marks }
        ensures { OnOk result (self.new ≡ spec.finished self.old p) }
    {
        drop_last(&mut self.path);
        self.marks.set(p as usize, Mark::Done);
        self.order.push(p)
    }

    // Leaves those on the path held.
    fn give_up(&mut self, alloc: Global)
        ensures { self.new ≡ spec.given_up self.old }
    {
        self.path = Items::new(alloc);
    }

    // Goes on from p to a number that it needs and nothing asked for yet.
    fn go_on(&mut self, p: u32, seen: usize, next: u32) -> Result<(), AllocError>
        requires here { p < length self.old.seen }
        requires there { next < length self.old.marks }
        ensures { OnOk result (self.new ≡ spec.held_too (spec.looked self.old p seen) next) }
    {
        self.seen.set(p as usize, seen);
        self.hold(next)
    }

    fn last(&self) -> u32
        requires { 0 < length self.now.path }
        ensures { result ≡ last_of self.now.path }
    {
        self.path.as_slice()[self.path.len() - 1]
    }

    // One step at the end of the path.
    fn step(&mut self, alloc: Global, needs: &[Items<u32>]) -> Result<(), AllocError>
        requires going { Going needs.now self.old }
        requires some { 0 < length self.old.path }
        ensures { OnOk result (StepsTo needs.now self.old self.new) }
    {
        let p = self.last();
        let list = needs_of(needs, p);
        let k = first_open(
            self.marks.as_slice(),
            list,
            self.seen.as_slice()[p as usize],
        );
        if k == list.len() {
            self.finish(p)?;
            return Ok(());
        }
        let q = list[k];
        if is_fresh(mark_of(self.marks.as_slice(), q)) {
            self.go_on(p, k, q)?;
            return Ok(());
        }
        self.give_up(alloc);
        Ok(())
    }

    // Walks until the path is empty.
    fn walk(&mut self, alloc: Global, needs: &[Items<u32>]) -> Result<(), AllocError>
        requires going { Going needs.now self.old }
        ensures going { OnOk result (Going needs.now self.new) }
        ensures met { OnOk result ((p : ℕ) → Met self.old p → Met self.new p) }
        ensures ended { OnOk result (self.new.path ≡ []) }
    {
        'steps: while self.path.len() > 0 {
            self.step(alloc, needs)?;
        }
        Ok(())
    }

    // Walks from p, where the path is empty.
    fn walk_from(&mut self, alloc: Global, needs: &[Items<u32>], p: u32) -> Result<(), AllocError>
        requires going { Going needs.now self.old }
        requires rests { self.old.path ≡ [] }
        requires here { p < length needs.now }
        ensures going { OnOk result (Going needs.now self.new) }
        ensures met { OnOk result ((q : ℕ) → Met self.old q → Met self.new q) }
        ensures ended { OnOk result (self.new.path ≡ []) }
        ensures this { OnOk result (Met self.new p) }
    {
        if is_fresh(mark_of(self.marks.as_slice(), p)) {
            self.hold(p)?;
            self.walk(alloc, needs)?;
        }
        Ok(())
    }
}

// The numbers that are held.
fn held_numbers(alloc: Global, marks: &[Mark]) -> Result<Items<u32>, AllocError>
    requires { length marks.now ≤ 4294967296 }
    ensures { IfOk result (λ left. AreHeld marks.now left) }
{
    let mut left = Items::new(alloc);
    for p in 0..marks.len() {
        if is_held(mark_of(marks, p as u32)) {
            left.push(p as u32)?;
        }
    }
    Ok(left)
}

/// The numbers below the length of `needs` in an order in which each needs only earlier ones, and those that have no
/// place in it. `needs` has for each number those that it needs; numbers past its end ask for nothing. An error where
/// memory runs out. It takes a linear number of steps in the numbers and the entries; no clause says so.
pub fn peel(alloc: Global, needs: &[Items<u32>]) -> Result<Peeled, AllocError>
    requires { length needs.now ≤ 4294967296 }
    ensures { IfOk result (λ r. IsPeeled needs.now r.order r.left) }
{
    let mut peeling = Peeling::start(alloc, needs.len())?;
    for p in 0..needs.len() {
        peeling.walk_from(alloc, needs, p as u32)?;
    }
    let left = held_numbers(alloc, peeling.marks.as_slice())?;
    let Peeling { order, .. } = peeling;
    Ok(Peeled { order, left })
}
