//! Targets.

use expr_type::Valued;

/// What is assigned to, whose own parts are typed.
#[derive(Drop)]
pub enum Target {
    /// A name with the selects behind it.
    Path(Valued),
    /// A concatenation of targets.
    Parts {
        /// The concatenation, whose operands are the targets in it.
        of: Valued,
        /// Whether one of them is an enum, also in a concatenation inside.
        has_enum: bool,
    },
    /// A stream of targets.
    Stream(Valued),
}

/// A part of a concatenated target.
#[derive(Drop)]
pub struct TargetPart {
    /// The target.
    pub of: Valued,
    /// Whether it is an enum, or a concatenation with one in it.
    pub has_enum: bool,
}
