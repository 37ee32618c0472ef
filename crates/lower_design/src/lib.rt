//! The lowering of an elaborated design to a target design.
#![tactic(auto)]

mod declare;
mod elaborated;
mod module;
mod process;

pub use elaborated::{lower_elaborated, typed_is_translatable};
pub use module::lower;
