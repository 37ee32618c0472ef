//! Assignment patterns as they are typed (IEEE 1800-2017 clause 10.9), and what is given to targets, over operands that are typed
//! already.
#![tactic(auto)]

ghost use Rattle.pattern_types.specs.Named.{FittedAsFound};

mod building;
mod giving;
mod items;
mod keys;
mod looking;
mod looks;
mod operand;
mod takes;
mod wanted;

pub use giving::{fitted, given, is_value, passed};
pub use looking::{look_at_pattern, look_at_value};
pub use looks::{Look, passes};
pub use operand::{Item, ItemKey, Items, NameKey, Operand, Parts, listed};

/// A pattern whose names are looked up already is fitted as in a context in which they stand for that.
#[tactic(auto, using(crate::proofs::Found::founds))]
pub fn patterns_are_fitted()
    ensures { FittedAsFound }
{}

pub use expr_copies::copy_value;
