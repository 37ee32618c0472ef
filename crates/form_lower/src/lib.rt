//! Target expressions of forms that have no operator of the target language, made of those of their operands: casts, `==?` and
//! `!=?`, assignment patterns and calls of functions.
#![tactic(auto)]

mod calls;
mod casts;
mod places;
mod wilds;

pub use casts::cast;
pub use places::{call_named, pattern};
pub use wilds::{matching, wild_equal};
