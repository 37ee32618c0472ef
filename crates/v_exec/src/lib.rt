//! Statements, functions and processes of the target language, as they run (IEEE 1364-2005 clauses 9 and 10).
#![tactic(auto)]

mod choices;
mod functions;
mod inputs;
mod processes;
mod selectors;
mod statements;

pub use choices::chosen;
pub use functions::call_function;
pub use processes::{Ran, given_in, run_assignment, run_process};
pub use selectors::{Selector, selector_at};
pub use statements::{run_branch, run_stmt};
