//! Select paths of the source that are written, as targets of the target language under guards.
#![tactic(auto)]

mod aims;
mod indices;
mod places;
mod spots;
mod writes;

pub use aims::{Aim, aim_at, known_target};
pub use indices::index_spot;
pub use spots::{Spot, element_spot, member_spot, whole_spot};
pub use writes::{Image, Write, Writes, between_writes, whole_writes};
