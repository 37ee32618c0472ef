//! Names and the paths of selects behind them, as values and as targets, each over something that types an expression (IEEE
//! 1800-2017 clauses 7.2.1, 7.4.5, 7.4.6, 10.3, 10.4, 11.5.1, 23.9, 25.3 and 25.5); dimensions and the types that they give (6.11
//! and 7.4); and calls of system functions (11.7, 20.6.2 and 20.8.1).
#![tactic(auto)]

mod asked_types;
mod calls;
mod dimension_types;
mod members;
mod names;
mod nets;
mod paths;
mod ranges;
mod steps;
mod target_names;
mod written;

pub use asked_types::as_type;
pub use calls::system_call;
pub use dimension_types::{dimensioned, type_of_name, type_of_word};
pub use names::named_path;
pub use nets::Nets;
pub use paths::path;
pub use ranges::bounds;
pub use target_names::named_target;
pub use typing_values::{behind_quiet, bits, index, leaf, named, value, width};
pub use written::{Dims, dimensions, select_dimensions};
