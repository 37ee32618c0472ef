//! The order in which the combinational processes of a design can be run, or the first one that is stuck (IEEE 1800-2017
//! clauses 9.2.2 and 10.3).
#![tactic(auto)]

mod bits;
mod combs;
mod least;
mod ordering;

pub use bits::{footprint_in, kept_uses, kept_write_uses, kept_writes, widths};
pub use combs::{comb_footprints, comb_numbers};
pub use ordering::{Order, order_by, order_of};
