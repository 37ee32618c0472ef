//! Functions by where they are declared, found in near constant time.
#![tactic(auto)]

mod places;

pub use places::{FunctionPlaces, WhereDeclared};
