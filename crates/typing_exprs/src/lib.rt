//! An expression of a text as it is typed (IEEE 1800-2017 clause 11), over something that types the expressions in it: with its width,
//! sign and type, or with the first rule that it breaks.
#![tactic(auto)]

mod calls;
mod forms;
mod names;
mod operands;
mod parentheses;
mod type_names;
mod walk;
mod words;

pub use calls::called;
pub use forms::form;
pub use operands::{as_parenthesized, as_stream};
pub use parentheses::{as_plain, parenthesized};
pub use type_names::{plain_operand, to_name};
pub use typing_operators::{reverses, written_size};
pub use typing_paths::named_path;
pub use typing_patterns::{by_sign, by_written_size, pattern};
pub use walk::{operand, type_expr};
pub use words::to_word;
