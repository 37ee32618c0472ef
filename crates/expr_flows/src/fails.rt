//! Why it isn't known what an expression reads.

ghost use Rattle.std.specs.Prelude.{◌≡◌};
ghost use Rattle.expr_flows.specs.declared.fails.FlowFail.TheVariants.{Memory};
ghost use Rattle.expr_flows.specs.Known.{IsFailOf};

use eval_parts::Halt;
use std::alloc::{AllocError, AllocFailed};

/// Why it isn't known what an expression reads.
#[derive(Drop, Debug)]
pub enum FlowFail {
    /// Memory ran out.
    Memory,
    /// The value of a constant takes too long.
    TooLong {
        /// Its first token.
        at: u32,
    },
}

impl From<AllocError> for FlowFail {
    ghost from_gives = { λ _ fail. fail ≡ Memory };

    fn from(_: AllocError) -> Self {
        FlowFail::Memory
    }
}

impl<T: Drop> From<AllocFailed<T>> for FlowFail {
    ghost from_gives = { λ _ fail. fail ≡ Memory };

    fn from(_: AllocFailed<T>) -> Self {
        FlowFail::Memory
    }
}

/// Why the constant at a token has no value.
pub fn fail_of(halt: Halt, at: u32) -> FlowFail
    ensures { IsFailOf halt at result }
{
    match halt {
        Halt::Memory => FlowFail::Memory,
        Halt::NotHeld(_) => FlowFail::TooLong { at },
        Halt::Turns => FlowFail::TooLong { at },
    }
}
