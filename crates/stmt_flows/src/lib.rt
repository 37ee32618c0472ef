//! What is known of typed statements before they run, by all their paths: what they read and write, bit by bit (IEEE 1800-2017
//! clauses 9.2.2, 12 and 13). Loops are their unrolled lists.
#![tactic(auto)]

mod branches;
mod fails;
mod rows;
mod scopes;
mod statements;
mod turns;

pub use fails::StmtFail;
pub use statements::{body_flow, flow_of};
