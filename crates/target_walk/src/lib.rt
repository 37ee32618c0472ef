//! Select paths that are written, step by step: where they and their elements stand, and targets for them.
#![tactic(auto)]

mod cells;
mod given;
mod never;
mod paths;
mod room;
mod standing;

pub use given::{Given, are_small};
pub use never::{Targets, with_names};
pub use paths::flatten_target;
pub use room::room_of;
