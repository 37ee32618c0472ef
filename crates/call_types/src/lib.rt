//! Streams and calls as they are typed (IEEE 1800-2017 clauses 11.4.14 and 13.4), over parts and actuals that are typed already.
#![tactic(auto)]

mod calls;
mod streams;

pub use calls::called;
pub use streams::{is_streamed_value, stream_of};
