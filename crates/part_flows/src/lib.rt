//! What is known of the parts of statements before they run: of conditions, assignments, calls of tasks, locals and the control of
//! loops (IEEE 1800-2017 clauses 10.4, 12.7.1 and 13.5). Its proofs say that flows one after another are a monoid.
#![tactic(auto)]

mod calls;
mod controls;
mod locals;
mod simple;
mod values;

pub use calls::call_flow;
pub use controls::{next_value, tested};
pub use locals::{copied, hold, setting, with_variable};
pub use simple::{assign_flow, condition};
