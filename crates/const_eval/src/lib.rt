//! The values of typed expressions, functions and statements (IEEE 1800-2017 clauses 11.2.1, 12 and 13), and where valuing them
//! stops.
#![tactic(auto)]

mod fails;
mod numbers;
mod runs;
mod valued;

pub use eval_runs::{Env, Update};
pub use fails::{EvalFail, SizeFail};
pub use runs::{run_function, run_stmt};
pub use valued::{number, size, value};
