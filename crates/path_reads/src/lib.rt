//! What select paths read, as their types store it: 0 in place of x and z where a bit is two-state (IEEE 1800-2017 clauses 6.3.2,
//! 6.11.2 and 7.2.1).
#![tactic(auto)]

mod reads;
mod runs;
mod stored;

pub use reads::{read, with_sign};
pub use stored::{call_with, is_four_state, stored_bits};
