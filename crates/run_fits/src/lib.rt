//! Whether typed statements and functions keep the limits of their runs: of expressions those of `expr_fits`, no local and no
//! whole target has more than 2^22 bits, and what is written is held.
#![tactic(auto)]

mod expressions;
mod functions;
mod statements;
mod targets;

pub use functions::{all_can_run, can_run};
pub use statements::stmt_fits;
