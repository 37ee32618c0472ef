//! Select paths of the source as selects of the target: where the bits of a path stand in the vector that holds what the path
//! stands on, and what reads them.
#![tactic(auto)]

mod copies;
mod helpers;
mod numbers;
mod offsets;
mod places;
mod ranks;
mod readings;
mod slides;
mod steps;

pub use copies::copy_expr;
pub use helpers::{Helpers, need};
pub use numbers::{bound, number};
pub use offsets::{Argument, Index, Offset, base_of, offset_of, signed_index};
pub use places::Place;
pub use ranks::{Rank, braced, falling_rank, free_rank, guarded_rank};
pub use readings::{Reading, Root, all_bits};
pub use slides::{PartSelect, index_step, slide_step};
pub use steps::{between_step, element_step, member_step, whole_name, whole_value};
