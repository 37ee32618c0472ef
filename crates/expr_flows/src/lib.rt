//! What is known of typed expressions before they run: what they read, whether their value is known, and which bits they read
//! and write as targets (IEEE 1800-2017 clauses 9.2.2, 11.5.1 and 12.7.1).
#![tactic(auto)]

mod fails;
mod known;
mod reads;
mod targets;
mod traced;

pub use fails::FlowFail;
pub use known::{Known, Variable, value_at, value_of};
pub use reads::add_reads;
pub use targets::{add_target, add_targets};
