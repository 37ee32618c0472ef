//! Runs of statements of the target language (IEEE 1364-2005 clause 9).
#![tactic(auto)]

mod assigned;
mod assignments;
mod bits;
mod conditions;
mod entry;
mod locals;
mod over;
mod pieces;
mod slots;
mod state;
mod targets;

pub use assigned::{assign, write_all};
pub use assignments::{assignment, given, writes};
pub use bits::write_bits;
pub use conditions::{agree, is_true};
pub use entry::clears;
pub use locals::{Locals, declared};
pub use over::put_over;
pub use pieces::{Piece, Pieces};
pub use slots::write;
pub use state::State;
pub use targets::{parts_wide, put, target_wide};
