//! What the rules of elaboration ask of types, and types that they give (IEEE 1800-2017 clauses 6.11, 6.22 and 7.2 to 7.4).
#![tactic(auto)]

mod copies;
mod elements;
mod kinds;
mod makes;

pub use copies::copy_type;
pub use elements::{element_of, is_two_state};
pub use kinds::{
    enum_of, is_array, is_enum, is_indexed, is_plain_to_enum, is_same_enum, is_unpacked,
};
pub use makes::{one_bit, vector};
pub use sv_types::{Choice, Choices, Expr, Exprs, Form, SvType, Value, Values};
