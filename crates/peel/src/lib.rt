//! An order of things that need each other, and those that no order holds.
//!
//! `peel` computes both. The other functions are laws, and do nothing: what the two lists say of the combinational
//! processes of a machine. Their proofs, to be cited by crates above, are in `proofs/Laws.antt`.
#![tactic(auto)]

mod peeling;

ghost use Rattle.peel.specs.Laws.{OrderedAreFree, PeeledIsAnOrder, RestIsStuck};

pub use peeling::{Peeled, peel};

/// Where each process needs exactly those that it follows, and none is left, the places of `peel` are an order of the
/// processes: none follows itself or a later one.
pub fn peeled_is_an_order()
    ensures { PeeledIsAnOrder }
{}

/// Processes that `peel` put in order are free, also where others are left.
pub fn ordered_are_free()
    ensures { OrderedAreFree }
{}

/// Processes that `peel` leaves are stuck: each lies on a circle, or follows one that does.
pub fn rest_is_stuck()
    ensures { RestIsStuck }
{}
