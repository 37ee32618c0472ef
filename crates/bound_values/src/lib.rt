//! What is seen of expressions before a run where loops are unrolled: whether their values are known, which constant index in them
//! takes too long, and the values of the bounds of loops (IEEE 1800-2017 clauses 11.5.1 and 12.7.1).
#![tactic(auto)]

mod bounds;
mod looks;
mod roots;
mod values;

pub use bounds::{Bound, Test, assigned, tested};
pub use looks::{Look, lesser, look_at};
