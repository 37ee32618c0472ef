//! Where a break of the rules on processes stands in the source: the place and the word of its token, for its refusal.
#![tactic(auto)]

mod design;
mod exprs;
mod refusals;
mod stmts;

pub use refusals::{check_least, refusal_of};
