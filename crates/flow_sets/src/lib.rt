//! What is known of statements before they run, as sets of bits.
#![tactic(auto)]

mod ends;
mod found;
mod uses;

pub use ends::Ends;
pub use found::{
    Found, Tokens, and_then, catching_breaks, catching_continues, counted, idle, jumping, or_else,
    reading, uncounted, unset_in, writing, writing_later,
};
pub use uses::{Write, Writes, local_span, use_at};
