//! Wide signals: unpacked arrays that are wider than any other signal may be and are no memories.
#![tactic(auto)]

mod bodies;
mod marks;
mod memories;
mod names;
mod processes;
mod wide;

use sqlite_items::Items;
pub use wide::too_wide;

/// Of each signal whether it is marked, by its number.
pub type Marks = Items<bool>;
