//! Select paths that are written, of an elaborated design, as targets in words of memories of the target language (IEEE 1364-2005
//! clause 4.9), or in vectors.
#![tactic(auto)]

mod apart;
mod targets;
mod words;
mod written;

pub use targets::lower_in_memory;
pub use written::lower_written;
