//! Why it isn't known what a statement does.

ghost use Rattle.std.specs.Prelude.{◌≡◌};
ghost use Rattle.stmt_flows.specs.declared.fails.StmtFail.TheVariants.{Memory};
ghost use Rattle.stmt_flows.specs.Fails.{fail_of};

use expr_flows::FlowFail;
use std::alloc::{AllocError, AllocFailed};

/// Why it isn't known what a statement does.
#[derive(Drop, Debug)]
pub enum StmtFail {
    /// Memory ran out.
    Memory,
    /// The value of a constant index or of a constant bound of a loop takes over 65,536 turns of a loop or 2^20 statements.
    TooLong {
        /// Its first token.
        at: u32,
    },
    /// There are over 2^20 statements, each counted by itself once loops are unrolled.
    TooMany,
}

impl From<AllocError> for StmtFail {
    ghost from_gives = { λ _ fail. fail ≡ Memory };

    fn from(_: AllocError) -> Self {
        StmtFail::Memory
    }
}

impl<T: Drop> From<AllocFailed<T>> for StmtFail {
    ghost from_gives = { λ _ fail. fail ≡ Memory };

    fn from(_: AllocFailed<T>) -> Self {
        StmtFail::Memory
    }
}

impl From<FlowFail> for StmtFail {
    ghost from_gives = { λ f fail. fail ≡ fail_of f };

    fn from(fail: FlowFail) -> Self {
        match fail {
            FlowFail::Memory => StmtFail::Memory,
            FlowFail::TooLong { at } => StmtFail::TooLong { at },
        }
    }
}
