//! Which things need which, by the numbers that they read and write: each needs those that write a number that it reads and
//! doesn't write itself.
//!
//! `needs_are_followed` is a law, and does nothing: what the needs are for the combinational processes of a machine. Its
//! proof, to be cited by crates above, is in `proofs/Laws.antt`.
#![tactic(auto)]

mod footprints;
mod needing;
mod writers;

ghost use Rattle.bit_needs.specs.Laws.{NeedsAreFollowed};

pub use footprints::{Footprint, footprint_of};
pub use needing::{Needs, needs_of};

/// Where the numbers stand for the bits of a machine, and the footprints are those of its combinational processes, each
/// process needs exactly those that it follows.
pub fn needs_are_followed()
    ensures { NeedsAreFollowed }
{}
