//! Calls of functions as they are typed (IEEE 1800-2017 clause 13.4), over what types the actuals and what makes functions known.
#![tactic(auto)]

mod arguments;
mod calls;
mod counts;
mod lists;
mod needing;
mod passing;

pub use arguments::actuals;
pub use calls::call;
pub use counts::uncounted;
pub use lists::{all_made, followed};
pub use needing::{has_count, needed};
pub use passing::{called_with, passed_all};
