//! Runs of typed statements and of the functions that they call (IEEE 1800-2017 clauses 9.3.1, 12 and 13).
#![tactic(auto)]

mod bodies;
mod functions;
mod outputs;
mod routines;
mod simple;
mod statements;

pub use bodies::run_body;
pub use eval_stmts::{Env, Update};
pub use functions::run_call;
pub use outputs::copy_all_out;
pub use routines::call_routine;
pub use statements::run;
