//! Targets and statements of the target language, made by what they mean: each call gives a tree whose meaning is the operation of
//! `v_meaning` on the meanings of its parts. So what lowers never opens a tree.
#![tactic(auto)]

mod statements;
mod targets;

pub use statements::{
    assignment, block, body, cases, conditional, default_item, empty, item, named_block,
};
pub use targets::{joined, named};
