//! On which signals the processes of a target design hang, and which they may write.
#![tactic(auto)]

mod laws;
mod numbers;
mod reads;
mod writes;

pub use laws::{hangs_on_reads, locals_dont_count, writes_only_uses};
pub use reads::{process_reads, table_reads};
pub use writes::signals_written;
