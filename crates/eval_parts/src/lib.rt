//! Parts of evaluating typed expressions (IEEE 1800-2017 clause 11): widths and signs of operands, vectors as they are cut,
//! filled and stored, and the bits that a select path names, found step by step, in place. Its proofs say what each form of
//! expression gives by what its operands gave.
#![tactic(auto)]

mod contexts;
mod fields;
mod halt;
mod layouts;
mod memory;
mod orders;
mod path_forms;
mod path_steps;
mod paths;
mod powers;
mod reads;
mod selects;
mod targets;
mod vectors;

pub use contexts::{are_signed, own_sign, own_width, wider};
pub use fields::member_at;
pub use halt::Halt;
pub use layouts::{Bounds, bounds_of, converted, is_signed};
pub use memory::{constant, in_context, or_memory, repeated_in_context, stream_in_context};
pub use orders::{Stream, from_top, stream_of, streamed_bits};
pub use path_forms::{index_form, member_form, part_form, slide_form, value_form};
pub use path_steps::{Step, can_be_read, step_of};
pub use paths::{Found, Root, Window, entire, nothing, part_of};
pub use powers::clog2;
pub use reads::read;
pub use selects::{between_at, element_at, index_of, slide_at};
pub use targets::{Places, type_at};
pub use vectors::{
    chosen, cut, equality_bit, extended, filled, is_known, literal, one_bit, repeat, stack,
};
