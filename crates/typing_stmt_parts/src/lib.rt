//! Parts of statements as they are typed over whole texts (IEEE 1800-2017 clauses 9.3.1, 12.4 and 12.5): items of `case` statements and of
//! blocks that have been looked at, and what is made of them.
#![tactic(auto)]

mod forms;
mod items;
mod parts;

pub use forms::{empty, some_of};
pub use items::{case_of, ended, ends, item_by, no_values};
pub use parts::{Part, block_by, joined, of_declared, of_statement};
