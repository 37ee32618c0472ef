//! What every stage shares: texts, places, tokens and refusals, and the outside that a translation reads from
//! and writes to.
#![tactic(auto)]

mod files;
mod memory_files;
mod memory_sinks;
mod message;
mod pieces;
mod real;
mod refusal;
mod sink;
mod text;
mod token;

pub use files::{Entries, Entry, Files, Loaded};
pub use memory_files::{MemoryFiles, SureFiles};
pub use memory_sinks::{MemorySink, SureSink};
pub use message::{
    put_eval_usage, put_out_of_memory, put_read_fault, put_refusal, put_unsettled, put_usage,
    put_write_fault,
};
pub use pieces::{PIECE, put_all, put_number, put_parts};
pub use real::{RealFiles, RealSink};
pub use refusal::{Fail, FileNames, Refusal};
pub use sink::{Put, Sink};
pub use sqlite_items::{Boxed, Items, at};
pub use text::Text;
pub use token::{Kind, Place, Spot, Token, Tokens};
