//! Steps of select paths.

use crate::operand::{Number, Valued};

/// A step of a path behind a value (IEEE 1800-2017 clauses 7.2.1, 7.4.5 and 7.4.6), whose own parts are whole.
#[derive(Drop)]
pub enum Step {
    /// The member whose name stands at a token.
    Member(u32),
    /// `[index]`
    Index {
        /// The `[`.
        opening: u32,
        /// The index.
        index: Valued,
    },
    /// `[left:right]`
    Part {
        /// The `[`.
        opening: u32,
        /// The left bound.
        left: Number,
        /// The right bound.
        right: Number,
    },
    /// `[base+:width]` or `[base-:width]`
    Slide {
        /// The `[`.
        opening: u32,
        /// Whether it is `+:`.
        up: bool,
        /// The base.
        base: Valued,
        /// The width.
        width: Number,
    },
}
