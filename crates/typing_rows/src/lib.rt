//! Walks over parts of a text in a row: the first break counts, and behind a part that breaks no rule and isn't whole the others are
//! looked at for theirs. The laws of a walk's turns, to be cited by the crates above, are in `proofs/`.
#![tactic(auto)]

mod rows;

pub use rows::{add, all_whole};
