//! Declarations of texts as they are typed (IEEE 1800-2017 clauses 6, 7, 12.7.1, 13.3 and 13.4): types as they are written, enums and their
//! names, variables and constants of blocks and loops, results and formals of functions and tasks, each behind those before it.
#![tactic(auto)]

mod block;
mod block_types;
mod bodies;
mod branches;
mod constants;
mod declarators;
mod dimensions;
mod enum_names;
mod enums;
mod fields;
mod formal_dims;
mod formal_rows;
mod formal_types;
mod found;
mod head_names;
mod heads;
mod locals;
mod loop_variables;
mod members;
mod operands;
mod packed;
mod putting;
mod results;
mod turns;
mod types;
mod values;
mod walk;

pub use block::{Block, Part};
pub use bodies::parameters;
pub use branches::choice;
pub use declarators::{named_variables, variables};
pub use dimensions::dims;
pub use enums::enumeration;
pub use formal_rows::{Turn, formals, next_formal};
pub use formal_types::{Before, FormalFound, formal};
pub use found::TypeFound;
pub use heads::{MOST_OUT, head_formals, in_body};
pub use loop_variables::loop_variable;
pub use results::{ResultFound, function_result, no_result};
pub use turns::{Control, LoopVariable, entered, loop_of};
pub use types::{base_type, declared_type, implicit, keyword, named_with};
pub use typing_exprs::{operand, type_expr};
pub use walk::typed_text;
