//! Blocking and nonblocking assignments that a process or function may not make (E605 and E606; IEEE 1800-2017 clauses 9.2.2.2,
//! 9.2.2.4 and 13.4.4).
#![tactic(auto)]

mod bases;
mod misuse;
mod rules;

pub use bases::Bases;
pub use misuse::{Misuse, misuse_of};
pub use rules::{Wrong, function_deferred, process_wrong};
