//! Patterns as they are written, and what their items are given to.

ghost use Rattle.std.specs.Prelude.{◌≡◌};
ghost use Rattle.pattern_fit.specs.declared.pattern.FitFail.TheVariants.{Memory};

use std::alloc::{AllocError, AllocFailed};
use sv_types::{Items, SvType, Text};

/// Keys of the items of a pattern, in order, `default` left out.
pub type Keys = Items<Key>;

/// What each member or element takes: the first member or the leftmost element first.
pub type PatternItems = Items<PatternItem>;

/// What stands before an item.
#[derive(Drop)]
pub enum Key {
    /// Nothing: the item is given by its place.
    Place,
    /// The name of a member.
    Member(Text),
    /// The index of an element.
    Index(i64),
}

/// What stands at `default`.
#[derive(Drop)]
pub enum Rest {
    /// There is no `default`.
    Absent,
    /// A value without a type of its own.
    Plain,
    /// A value of this type.
    Typed(SvType),
}

/// An assignment pattern, without the values of its items.
#[derive(Drop)]
pub struct Pattern {
    /// The keys of its items.
    pub keys: Keys,
    /// Its `default`.
    pub rest: Rest,
}

/// What a member or element takes.
#[derive(Clone, Copy, PartialEq, Eq, Debug)]
pub enum PatternItem {
    /// The item with this number, from 0, `default` left out.
    Item(u32),
    /// The value of `default` itself.
    Default,
    /// The pattern `'{default: value}` with the value of `default`.
    Spread,
}

/// Why a pattern doesn't fit.
#[derive(Drop, Debug)]
pub enum FitFail {
    /// Memory ran out.
    Memory,
    /// Its items don't cover the members or elements of the type once each, or the type has none.
    NoFit,
}

impl From<AllocError> for FitFail {
    ghost from_gives = { λ _ fail. fail ≡ Memory };

    fn from(_: AllocError) -> Self {
        FitFail::Memory
    }
}

impl<T: Drop> From<AllocFailed<T>> for FitFail {
    ghost from_gives = { λ _ fail. fail ≡ Memory };

    fn from(_: AllocFailed<T>) -> Self {
        FitFail::Memory
    }
}
