//! The functions and tasks of a source text by the tokens of their names.

ghost use Rattle.std.specs.Prelude.{◌≡◌, ℕ, None, IfOk, OnOk};
ghost use Rattle.std.specs.Option.{option_map};
ghost use Rattle.expr_type.specs.Functions.{name_of};
ghost use Rattle.expr_type.specs.Routines.{named_at, routines};
ghost use Rattle.source_routines.specs.Texts.{text_of, texts, routine_in, put_routine};

use crate::routine::Routine;
use crate::walk::units;
use indexmap::IndexMap;
use std::alloc::{AllocError, Global};
use sv_source::Items;
use sv_tree::SourceTree;

/// The functions and tasks of a source text by the tokens of their names.
#[derive(Drop)]
pub struct RoutineTable<'t> {
    table: IndexMap<u32, Routine<'t>>,
}

impl<'t> RoutineTable<'t> {
    /// None. It takes no memory.
    fn new(alloc: Global) -> RoutineTable<'t>
        ensures { routine_in result ≡ (λ at. None) }
    {
        RoutineTable {
            table: IndexMap::new(alloc),
        }
    }

    /// The one whose name stands at a token, whatever was there before.
    fn put(&mut self, name: u32, routine: Routine<'t>) -> Result<(), AllocError>
        ensures { OnOk result (routine_in self.new ≡ put_routine (routine_in self.old) name (text_of routine.entry)) }
    {
        self.table.insert(name, routine)?;
        Ok(())
    }

    /// The one whose name stands at a token, if there is one.
    pub fn at(&self, token: u32) -> Option<Routine<'t>>
        ensures { option_map text_of result ≡ routine_in self.now token }
    {
        self.table.get(&token).copied()
    }
}

/// Functions and tasks by the tokens of their names; of those with one token the first.
fn table_of<'t>(alloc: Global, list: &[Routine<'t>]) -> Result<RoutineTable<'t>, AllocError>
    ensures { IfOk result (λ x. (at : ℕ) → routine_in x at ≡ named_at at (texts list.now)) }
{
    let mut table = RoutineTable::new(alloc);
    let mut at = list.len();
    while at > 0 {
        at -= 1;
        let routine = list[at];
        table.put(routine.name(), routine)?;
    }
    Ok(table)
}

/// The functions and tasks of a source text, wherever they stand in it, by the tokens of their names (IEEE 1800-2017 clause 13).
pub fn routines_of<'t>(alloc: Global, tree: &'t SourceTree) -> Result<RoutineTable<'t>, AllocError>
    ensures { IfOk result (λ x. (at : ℕ) → routine_in x at ≡ named_at at (routines tree.now)) }
{
    let mut list = Items::new(alloc);
    units(tree.units.as_slice(), &mut list)?;
    table_of(alloc, list.as_slice())
}
