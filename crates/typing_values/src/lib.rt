//! Parts of expressions as they are typed, each over something that types an expression: values, constant numbers, and names by
//! themselves (IEEE 1800-2017 clauses 11.2.1, 11.5.1 and 23.9).
#![tactic(auto)]

mod leaves;
mod numbers;
mod values;

pub use call_types::{called, stream_of};
pub use constant_types::key_number;
pub use leaves::{leaf, named};
pub use numbers::{
    as_constant, bound, constant, constant_stream, count, number, number_of_operand,
    number_of_value, width,
};
pub use values::{
    as_streamed, as_value, behind_quiet, bits, index, not_streamed, part, streamed, two,
    unstreamed, value,
};
