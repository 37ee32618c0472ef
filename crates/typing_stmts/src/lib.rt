//! Statements of a text, and its functions and tasks, as they are typed (IEEE 1800-2017 clauses 9.3, 10.4, 11.4.2, 12.4 to 12.8 and 13.3
//! to 13.5), over something that makes functions known; and the texts of frames, whose functions are typed where they are first needed.
#![tactic(auto)]

mod bodies;
mod calls;
mod frames;
mod identity;
mod needed;
mod parts;
mod routine_paths;
mod routine_texts;
mod routines;
mod turns;
mod walk;

pub use calls::{type_expr, type_function, type_stmt};
pub use frames::{expr_of, function_of, stmt_of};
pub use needed::routine;
pub use routine_paths::function_path;
pub use routine_texts::routine_text;
pub use routines::by_text;
pub use walk::{block, statement};
