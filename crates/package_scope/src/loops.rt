//! What generate loops run over, by the scope that they stand in.

ghost use Rattle.std.specs.Prelude.{◌≡◌, ℕ, [], filter, IfOk, OnOk};
ghost use Rattle.package_scope.specs.Finding.{loops_in, with_loop, is_loop_of};

use crate::table::LoopRun;
use indexmap::IndexMap;
use std::alloc::{AllocError, Global};
use sv_source::Items;

/// What generate loops run over, by scope.
#[derive(Drop)]
pub struct Loops {
    lists: IndexMap<u32, Items<LoopRun>>,
}

impl Loops {
    /// No loops. It takes no memory.
    fn new(alloc: Global) -> Loops
        ensures { loops_in result ≡ (λ s. []) }
    {
        Loops {
            lists: IndexMap::new(alloc),
        }
    }

    /// Adds one behind those of its scope.
    fn push(&mut self, alloc: Global, run: LoopRun) -> Result<(), AllocError>
        ensures { OnOk result (loops_in self.new ≡ with_loop (loops_in self.old) run) }
    {
        match self.lists.get_mut(&run.scope) {
            Some(list) => list.push(run),
            None => {
                let mut list = Items::new(alloc);
                list.push(run)?;
                self.lists.insert(run.scope, list)?;
                Ok(())
            }
        }
    }

    /// Those of a scope.
    pub fn of(&self, scope: u32) -> &[LoopRun]
        ensures { result.now ≡ loops_in self.now scope }
    {
        match self.lists.get(&scope) {
            Some(list) => list.as_slice(),
            None => &[],
        }
    }
}

/// What the generate loops of a table run over, by their scopes.
pub fn loops_of(alloc: Global, list: &[LoopRun]) -> Result<Loops, AllocError>
    ensures { IfOk result (λ x. (s : ℕ) → loops_in x s ≡ filter (is_loop_of s) list.now) }
{
    let mut loops = Loops::new(alloc);
    for run in list {
        loops.push(alloc, *run)?;
    }
    Ok(loops)
}
