//! Target texts, read into designs.
#![tactic(auto)]

mod parse;
mod spot;
mod walk;

pub use parse::{NESTING_LIMIT, discard, has_one_reading, parse_text, parse_tokens};
pub use spot::{Place, Spot, find_spot};
