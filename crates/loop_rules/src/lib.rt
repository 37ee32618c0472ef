//! How the processes and functions of a design break the rules on loops (IEEE 1800-2017 clause 12.7.1): which loops can't be
//! unrolled (E608), and which bodies have too many statements once they are (E703). Where they can, what is known of the bodies
//! before a run; and so the least break of all rules on processes.
#![tactic(auto)]

mod bodies;
mod check;
mod checked;
mod counted;
mod counts;
mod design_bodies;
mod design_lists;
mod lists;
mod targets;
mod turns;
mod unbounded;
mod walks;

pub use bodies::loops_of;
pub use check::least_break;
pub use checked::{Checked, check_processes};
pub use counted::{is_counted, variable_in};
pub use design_bodies::found_of;
pub use design_lists::{function_flows, process_flows};
pub use lists::{function_loops, process_loops};
pub use targets::writes;
pub use turns::{Inside, advance, enter, goes_on, lasting};
pub use unbounded::least_unbounded;
pub use walks::unrolled;
