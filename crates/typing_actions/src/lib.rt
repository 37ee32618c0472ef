//! What statements do, as it is typed over whole texts (IEEE 1800-2017 clauses 10.3, 10.4, 11.4.1, 11.4.2, 12.4, 12.5, 12.8 and 13.5):
//! conditions, targets and assignments, and calls of tasks and void functions.
#![tactic(auto)]

mod actual_forms;
mod actual_names;
mod actual_parts;
mod actual_walk;
mod actuals;
mod assigns;
mod calls;
mod conditions;
mod enum_parts;
mod loops;
mod lvalues;
mod ones;
mod parts;
mod passing;
mod paths;
mod returns;
mod sizes;
mod task_actuals;

pub use actual_forms::is_target;
pub use actuals::actual_target;
pub use assigns::{assign, continuous, counted};
pub use calls::task_called;
pub use conditions::{condition, item_values};
pub use loops::loop_step;
pub use lvalues::target;
pub use paths::name_target;
pub use returns::returned;
pub use typing_exprs::operand;
