//! The first token of an expression of a target text that breaks a rule, found in one walk.
#![tactic(auto)]

mod lists;
mod names;
mod numbers;
mod operations;
mod seen;
mod sels;
mod walk;

pub use lists::{ListSeen, commas, is_function};
pub use names::{is_net, name_bits, name_mark};
pub use numbers::{bits_of, bits_plus, earlier, mark, plus, range_bits};
pub use operations::Operation;
pub use seen::{Seen, alone, in_context, is_wide};
pub use sels::{SelSeen, SelsSeen};
pub use walk::{expr_seen, sels_seen};
