//! What the nodes of a derivation by the target grammar mean, row by row.
#![tactic(auto)]

mod expressions;
mod items;
mod node;
mod numbers;
mod statements;
mod targets;

pub use node::node_part;
