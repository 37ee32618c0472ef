//! Which numbers are reached from others along lists of followers.
#![tactic(auto)]

ghost use Rattle.std.specs.Prelude.{◌≡◌, ◌+◌, ◌<◌, ◌∷◌, ◌++◌, [], true, false, not, length, replicate, slice_index_or, IfOk, OnOk};
ghost use Rattle.reach_marks.specs.Reach as spec;
ghost use Rattle.reach_marks.specs.Reach.{IsReached, list_at};

use sqlite_items::Items;
use std::alloc::{AllocError, Global};

/// Numbers in any order.
pub type Numbers = Items<u32>;

/// Of each number whether it is marked, in ascending order.
pub type Marks = Items<bool>;

/// Marks, and numbers that are still to be marked.
#[derive(Drop)]
pub struct Reaching {
    /// The marks.
    pub marks: Marks,
    /// Numbers that are reached, and may be marked already.
    pub todo: Numbers,
}

// No marks.
fn unmarked(alloc: Global, count: usize) -> Result<Marks, AllocError>
    ensures { IfOk result (λ r. r ≡ replicate count false) }
{
    let mut marks = Marks::new(alloc);
    for _k in 0..count {
        marks.push(false)?;
    }
    Ok(marks)
}

// Whether a number has a mark that isn't set.
fn is_open(marks: &[bool], n: u32) -> bool
    ensures value { result ≡ not (slice_index_or marks.now n true) }
    ensures within { result ≡ true → n < length marks.now }
{
    if (n as usize) < marks.len() {
        !marks[n as usize]
    } else {
        false
    }
}

// Adds numbers to the end of a list.
fn add_all(numbers: &[u32], to: &mut Numbers) -> Result<(), AllocError>
    ensures { OnOk result (to.new ≡ to.old ++ numbers.now) }
{
    for n in numbers {
        to.push(*n)?;
    }
    Ok(())
}

impl Reaching {
    // Marks a number, and adds what follows it to those that are still to be marked, if it isn't marked yet.
    fn visit(&mut self, n: u32, next: &[Numbers]) -> Result<(), AllocError>
        requires { length self.old.marks ≡ length next.now }
        ensures { OnOk result (self.new ≡ spec.visited next.now self.old n) }
    {
        if is_open(self.marks.as_slice(), n) {
            self.marks.set(n as usize, true);
            add_all(next[n as usize].as_slice(), &mut self.todo)?;
        }
        Ok(())
    }
}

/// Of each number below the length of `next` whether it is reached: whether it is a root, or follows a number that is reached by its
/// list in `next`. In steps linear in the numbers of all lists; no clause says so.

pub fn reached(alloc: Global, roots: &[u32], next: &[Numbers]) -> Result<Marks, AllocError>
    ensures { IfOk result (λ r. IsReached roots.now next.now r) }
{
    let marks = unmarked(alloc, next.len())?;
    let todo = Numbers::from_slice(alloc, roots)?;
    let mut state = Reaching { marks, todo };
    'steps: while let Some(n) = state.todo.pop() {
        state.visit(n, next)?;
    }
    Ok(state.marks)
}
