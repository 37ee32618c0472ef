//! The names under which signals, locals and functions stand in a text, by their numbers.
#![tactic(auto)]

mod named;
mod places;

pub use named::{function_text, is_memory, local_text, signal_text};
