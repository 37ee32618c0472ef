//! Which expressions of the target language are constants (IEEE 1364-2005 clauses 4.1 and 10.4.5).
#![tactic(auto)]

mod constants;

pub use constants::{constant_prefix, is_constant};
