//! A function or task as it is written.

ghost use Rattle.std.specs.Prelude.{◌≡◌};
ghost use Rattle.expr_type.specs.Functions.{name_of};
ghost use Rattle.expr_type.specs.Names as names;
ghost use Rattle.source_routines.specs.Texts.{text_of};

use sv_tree::{FormalList, Function, Task};

/// A function or task as it is written (IEEE 1800-2017 clause 13).
#[derive(Clone, Copy)]
pub enum Routine<'t> {
    /// A function.
    Function(&'t Function),
    /// A task.
    Task(&'t Task),
}

/// How many formals there are.
fn formals_in(list: &Option<FormalList>) -> usize
    ensures { result ≡ names.formals_in list.now }
{
    match list {
        None => 0,
        Some(list) => list.formals.len(),
    }
}

impl<'t> Routine<'t> {
    /// The token of its name.
    pub fn name(&self) -> u32
        ensures { result ≡ name_of (text_of self.now) }
    {
        match self {
            Routine::Function(function) => function.name,
            Routine::Task(task) => task.name,
        }
    }

    /// How many formals it has.
    pub fn formal_count(&self) -> usize
        ensures { result ≡ names.formal_count (text_of self.now) }
    {
        match self {
            Routine::Function(function) => formals_in(&function.formals),
            Routine::Task(task) => formals_in(&task.formals),
        }
    }
}
