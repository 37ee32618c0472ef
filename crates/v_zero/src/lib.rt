//! What the signals of a target design hold at time zero, and which `always @*` that starts.
#![tactic(auto)]

mod given;
mod laws;
mod names;
mod start;

pub use given::given_store;
pub use laws::{
    few_signals, given_held, initial_held, initials_of_rules, names_are_listed, rooms_of_rules,
    start_held, triggered_by_listed,
};
pub use names::{Signals, names_without_repeats, without_repeats};
pub use start::start_store;
