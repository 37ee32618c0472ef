//! The functions and tasks of a source text, found by the tokens of their names.
#![tactic(auto)]

mod routine;
mod routine_table;
mod walk;

pub use routine::Routine;
pub use routine_table::{RoutineTable, routines_of};
