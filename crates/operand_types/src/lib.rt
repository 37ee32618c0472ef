//! Operators as they are typed (IEEE 1800-2017 clauses 11.4 and 11.6): the width and sign that table 11-21 gives, and the rules on
//! their operands.
#![tactic(auto)]

mod binary;
mod joins;
mod makes;
mod operands;
mod spots;
mod unary;

pub use binary::{binary_kind, binary_of};
pub use eval_parts::{bounds_of, is_signed};
pub use joins::{concat_of, is_part, repeat_of};
pub use makes::{Parts, by_itself, in_context};
pub use operands::{MOST_ARITHMETIC, Operands, Pair, beside, both_type, has_bits};
pub use spots::spot_at;
pub use type_kinds::{
    copy_type, element_of, is_indexed, is_plain_to_enum, is_unpacked, one_bit, vector,
};
pub use unary::{unary_kind, unary_of};
