//! The first token of an item of a module of a target text that breaks a rule.
#![tactic(auto)]

mod functions;
mod instances;
mod processes;
mod signals;

pub use functions::{enter_function, function_seen};
pub use instances::{connections_seen, instance_seen};
pub use processes::{initial_first, process_seen};
pub use signals::{listed_tokens, range_tokens, signal_first, signal_tokens};
