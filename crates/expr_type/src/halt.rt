//! Why something has no type.

ghost use Rattle.std.specs.Prelude.{◌≡◌};
ghost use Rattle.expr_type.specs.declared.halt.Halt.TheVariants.{Memory};

use std::alloc::{AllocError, AllocFailed};

/// Why something has no type.
#[derive(Clone, Copy, Debug)]
pub enum Halt {
    /// Memory ran out.
    Memory,
    /// It breaks a rule of elaboration.
    Breaks {
        /// The token that breaks it.
        at: u32,
        /// The rule's number, as 501 for E501.
        rule: u16,
    },
    /// It breaks no rule, but names what has a broken declaration.
    Quiet,
}

impl From<AllocError> for Halt {
    ghost from_gives = { λ _ halt. halt ≡ Memory };

    fn from(_: AllocError) -> Self {
        Halt::Memory
    }
}

impl<T: Drop> From<AllocFailed<T>> for Halt {
    ghost from_gives = { λ _ halt. halt ≡ Memory };

    fn from(_: AllocFailed<T>) -> Self {
        Halt::Memory
    }
}
