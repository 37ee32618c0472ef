//! Select paths that are written, of an elaborated design, as targets of the target language: what these write, all together, is
//! what an assignment to the path changes (IEEE 1800-2017 clauses 10.4 and 11.5.1).
#![tactic(auto)]

mod indices;
mod roots;
mod targets;
mod within;

pub use indices::{Indices, index_given, put_indices};
pub use targets::lower_target;
pub use within::Within;
