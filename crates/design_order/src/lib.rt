//! The order in which the combinational processes of a design can be run that breaks no rule on processes, or the first one that
//! is stuck (IEEE 1800-2017 clauses 9.2.2 and 10.3).
#![tactic(auto)]

mod flows;
mod ordering;

pub use flows::process_flows;
pub use ordering::order;
