//! What the text of a process or function mentions: the functions that it calls, and the signals that stand in it as a whole,
//! otherwise than under an index.
#![tactic(auto)]

mod exprs;
mod stmts;

use sqlite_items::Items;
pub use stmts::mentions_of;

/// Numbers in the order of the text.
pub type Numbers = Items<u32>;

/// Signals and functions that are mentioned, each as often as it is.
#[derive(Drop)]
pub struct Mentioned {
    /// The numbers of signals that stand as a whole, otherwise than under an index.
    pub whole: Numbers,
    /// The places of functions that are called.
    pub calls: Numbers,
}
