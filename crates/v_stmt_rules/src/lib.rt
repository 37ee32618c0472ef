//! The first token of a statement of a target text that breaks a rule, found in one walk.
#![tactic(auto)]

mod cases;
mod labels;
mod locals;
mod statements;
mod targets;

pub use cases::{CaseSeen, ValuesSeen};
pub use labels::{branch_labels, stmt_labels};
pub use locals::{local_met, locals_seen};
pub use statements::{StmtSeen, branch_seen, enter_block, stmt_seen};
pub use targets::{Procedure, TargetSeen, assign_first, target_seen};
