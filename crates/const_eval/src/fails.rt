//! Why there is no value.

ghost use Rattle.std.specs.Prelude.{◌≡◌};
ghost use Rattle.const_eval.specs.Values.{FailsBy};
ghost use Rattle.const_eval.specs.declared.fails.EvalFail.TheVariants.{Memory};

use eval_parts::Halt;
use std::alloc::{AllocError, AllocFailed};

/// Why an expression, a function or a statement has no value.
#[derive(Drop, Debug)]
pub enum EvalFail {
    /// Memory ran out.
    Memory,
    /// It reads a signal that isn't held.
    NotConstant {
        /// The token of the read.
        at: u32,
    },
    /// A loop makes too many turns, or too many statements run.
    Turns {
        /// The first token of the expression or the token of the function that was asked for; 0 for a statement.
        at: u32,
    },
}

/// Why an expression is no size.
#[derive(Drop, Debug)]
pub enum SizeFail {
    /// It has no value.
    Eval(EvalFail),
    /// A bit of its value is x or z, or its number is out of range.
    Range {
        /// Its first token.
        at: u32,
    },
}

impl From<AllocError> for EvalFail {
    ghost from_gives = { λ _ fail. fail ≡ Memory };

    fn from(_: AllocError) -> Self {
        EvalFail::Memory
    }
}

impl<T: Drop> From<AllocFailed<T>> for EvalFail {
    ghost from_gives = { λ _ fail. fail ≡ Memory };

    fn from(_: AllocFailed<T>) -> Self {
        EvalFail::Memory
    }
}

/// Why what stands at a token has no value.
pub fn fail_of(halt: Halt, at: u32) -> EvalFail
    ensures { FailsBy halt at result }
{
    match halt {
        Halt::Memory => EvalFail::Memory,
        Halt::NotHeld(read) => EvalFail::NotConstant { at: read },
        Halt::Turns => EvalFail::Turns { at },
    }
}
