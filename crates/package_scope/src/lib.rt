//! The scopes of a source text, and what its names stand for.
#![tactic(auto)]

mod breaks;
mod building;
mod call_breaks;
mod checking;
mod clashes;
mod event_breaks;
mod fitting;
mod found_uses;
mod index;
mod loops;
mod meaning;
mod name_table;
mod named_text;
mod names;
mod packages;
mod rests;
mod scoped;
mod table;
mod use_breaks;
mod walks;
mod wildcards;

pub use breaks::Break;
pub use checking::{lookup, scopes};
pub use name_table::NameTable;
pub use scoped::Scopes;
pub use table::{
    DeclKind, Declaration, Found, Head, Link, LoopRun, NamedImport, Rest, Scope, Table, Use,
    WildcardImport,
};
