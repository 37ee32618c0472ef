//! The bits that the processes of a target design may write, and how many they are (IEEE 1364-2005 clauses 6.1, 9.2 and
//! 12.3.9).
#![tactic(auto)]

mod counts;
mod designs;
mod processes;
mod rows;
mod sets;
mod spans;

pub use counts::comb_bits;
pub use designs::all_writes;
pub use processes::process_writes;
pub use rows::{BitRow, row_of};
pub use sets::{marks_at, written_count, written_set};
