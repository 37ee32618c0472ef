//! The bits of typed expressions (IEEE 1800-2017 clause 11), where something else runs the functions that they call.
#![tactic(auto)]

mod calls;
mod evaluate;
mod held;

pub use calls::{Call, Called, Vectors};
pub use eval_forms::{formals_of, given_bits};
pub use evaluate::{bits, find};
pub use held::{Held, Scope, read_path};
