//! Target designs as machines whose processes can be run.
#![tactic(auto)]

mod circuit;
mod combs;
mod copies;
mod fails;
mod ground;
mod laws;
mod making;
mod ports;
mod prints;
mod rows;
mod single;
mod whole;
mod written;

pub use circuit::Circuit;
pub use combs::Comb;
pub use fails::RunFail;
pub use ground::Ground;
pub use laws::inputs_of_tops;
pub use making::{combs_of, edges_of};
pub use ports::inputs_of;
pub use prints::{Prints, prints_of};
pub use rows::run;
pub use whole::Whole;
pub use written::{marks_in, row_in, written_in};
