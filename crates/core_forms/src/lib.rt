//! The core form of elaborated designs, the law that a design runs as its core form does, and core designs as elaborated ones.
#![tactic(auto)]

mod elaborated;
mod forms;
mod laws;

pub use elaborated::typed;
pub use forms::core_of;
pub use laws::{cores_have_the_traces, cores_run_alike};
