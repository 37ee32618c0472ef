//! Sets of bits as spans of numbers.
//!
//! A set is a list of spans in ascending order, so that it is as long as the bits lie apart, whatever there are of them.
#![tactic(auto)]

mod counting;
mod cutting;
mod growing;
mod marking;
mod meeting;
mod span;
mod unions;

pub use counting::count_of;
pub use cutting::cut_uses;
pub use growing::joined;
pub use marking::{Marks, marks_of};
pub use meeting::common;
pub use span::{Span, Spans, Use, Uses};
pub use unions::union_of;
