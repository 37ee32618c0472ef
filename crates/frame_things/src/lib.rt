//! What declarations stand for by the lists of a frame, found by their numbers in near constant time.
#![tactic(auto)]

mod finding;
mod frame_index;
mod members;
mod numbered;
mod places;
mod rows;
mod things;

pub use finding::FrameThings;
pub use frame_index::{FrameIndex, index_of};
pub use members::{MemberNames, Members, Slots, members_of};
pub use numbered::Numbered;
pub use places::{Places, places_of};
pub use rows::{Row, Rows};
pub use things::{NamedLocal, Things};
