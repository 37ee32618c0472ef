//! What is assigned to, and what is assigned, over parts that are typed (IEEE 1800-2017 clauses 10.3, 10.4, 11.4.1, 11.4.2, 11.4.12 and
//! 11.4.14).
#![tactic(auto)]

mod assigning;
mod combining;
mod giving;
mod parts;
mod target;

pub use assigning::{assigned_by, assignment};
pub use combining::combined;
pub use giving::assigned;
pub use parts::{joined_target, stream_target, target_part, whole_of};
pub use target::{Target, TargetPart};
