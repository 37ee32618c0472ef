//! The names of the modules of a target design, as tables that all instances of a module share.
#![tactic(auto)]

mod laws;
mod places;
mod signals;
mod table;
mod tables;

pub use laws::names_stand_once;
pub use places::{function_count, functions_of};
pub use signals::{inputs_of, kept, signal_name, signals_of};
pub use table::Table;
pub use tables::{Tables, names_input, scope_in, table_of, tables_of};
