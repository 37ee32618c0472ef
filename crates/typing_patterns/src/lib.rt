//! Assignment patterns as they are typed (IEEE 1800-2017 clause 10.9), over something that types the expressions in them: their
//! items, which are given to members and elements once the type is known. And casts to sizes, signs and types (clause 6.24.1).
#![tactic(auto)]

mod cast_insides;
mod items;
mod keys;
mod patterns;
mod signs;
mod sizes;
mod types;

pub use cast_insides::{Inside, behind_tick};
pub use patterns::pattern;
pub use signs::by_sign;
pub use sizes::{by_size, by_written_size};
pub use types::by_type;
pub use typing_values::{as_value, behind_quiet, number_of_operand};
