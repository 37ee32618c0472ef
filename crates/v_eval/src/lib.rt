//! The values of expressions of the target language (IEEE 1364-2005 clause 5).
#![tactic(auto)]

mod around;
mod evaluate;
mod held;
mod indices;
mod modules;
mod operators;
mod paths;
mod scopes;
mod vectors;
mod widths;
mod windows;

pub use around::{Around, Vectors, number_of};
pub use evaluate::{path, value};
pub use held::{Held, Slot, read};
pub use indices::index_of;
pub use modules::{Local, Module, Signal, function_of, inputs_of};
pub use operators::{
    Context, Infix, Prefix, infix_of, infix_own, infix_value, larger, left_context, prefix_context,
    prefix_of, prefix_own, prefix_value, right_context,
};
pub use paths::{Named, Path, all_bits, bits_named, bits_of_range, select, start, taken};
pub use scopes::Scope;
pub use vectors::{
    chosen, combined, cut, empty, extended, one_bit, ordered, powered, reduced, repeated, shifted,
    stacked, transformed,
};
pub use widths::{Shape, added, name_wide, own, shape_of};
pub use windows::{Window, entire, nothing, part_of};
