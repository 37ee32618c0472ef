//! The instances of a target design below its top, with the signals of all of them numbered in preorder.
#![tactic(auto)]

mod laws;
mod slots;
mod walk;

pub use laws::parts_of_instances;
pub use slots::{Slot, SlotKind, Slots, slot_of};
pub use walk::{VInst, VInsts, Walk, instances};
