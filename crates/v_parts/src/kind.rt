//! Kinds of parts.

ghost use Rattle.std.specs.Prelude.{◌≡◌, Option};
ghost use Rattle.v_tree.specs.declared.parts.VPart.{VPart};
ghost use Rattle.v_parts.specs.Taking.{is_there};

use v_tree::VPart;

/// A kind of parts, with what a part of the kind says.
pub trait Kind {
    /// What a part of the kind says.
    type Value: Drop;

    ghost value: { VPart → Option Self.Value };

    /// Whether the part is of the kind.
    fn is(part: &VPart) -> bool
        ensures { result ≡ is_there (value part.now) };

    /// What the part says, if it is of the kind.
    fn take(part: VPart) -> Option<Self::Value>
        ensures { result ≡ value part };
}

/// Drops a part. A function that takes what it drops is proved once, where a drop in each `take` would be proved in each.
pub fn discard(_part: VPart) {}
