//! Select paths as they are typed (IEEE 1800-2017 clauses 7.2.1, 7.4.5, 7.4.6 and 11.5.1): the types of members, elements and parts,
//! and the rules on what stands in the steps.
#![tactic(auto)]

mod elements;
mod members;
mod parts;
mod steps;

pub use elements::{element, is_index};
pub use members::member_of;
pub use parts::{part, slide};
pub use steps::stepped;
