//! Whether a typed expression keeps the limits of its evaluation: its types are those that the rules of IEEE 1800-2017 clause 11
//! give, none has more than 2^22 bits, arithmetic has at most 128 and an index at most 64.
#![tactic(auto)]

mod alike;
mod compared;
mod lists;
mod needs;
mod operators;
mod paths;
mod results;
mod trees;

pub use lists::{are_narrow, formals_of};
pub use results::own;
pub use trees::{fits, fits_alone};
