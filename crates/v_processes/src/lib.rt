//! The processes of a target design by their numbers.
#![tactic(auto)]

mod connected;
mod counting;
mod design;
mod found;
mod making;
mod naming;
mod own;
mod ports;
mod process;
mod walk;

pub use connected::lval_of;
pub use counting::signal_count;
pub use design::Design;
pub use found::{Found, Initial, Initials};
pub use making::does_of;
pub use naming::{items_named, number_named, own_count, table_named};
pub use own::{add_initials, add_processes};
pub use ports::{Inst, add_connections};
pub use process::{Does, EdgeOn, EdgesOn, Port, Proc, Procs};
pub use walk::processes_of;
