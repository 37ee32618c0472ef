ghost use Rattle.std.specs.Prelude.{◌≡◌};

use std::alloc::AllocError;

/// Why `Ll1::new` gives no reader.
#[derive(Debug, Drop)]
pub enum NewFail {
    /// Memory ran out.
    Memory,
    /// The row is the first that breaks the class; 0 in a table without rows.
    Unfit { row: u16 },
}

impl From<AllocError> for NewFail {
    ghost use Rattle.ll_engine.specs.declared.fails.NewFail.TheVariants.{Memory};

    ghost from_gives = { λ _ r. r ≡ Memory };

    fn from(_error: AllocError) -> NewFail {
        NewFail::Memory
    }
}

/// Why `Ll1::parse` gives no tree.
#[derive(Debug, Drop)]
pub enum ParseFail {
    /// Memory ran out.
    Memory,
    /// A text begins with the symbols before `at`, and none with those up to and with `at`. The end counts
    /// as a symbol behind all others.
    NoText { at: u32 },
    /// Nesting first passes the limit at the symbol `at`.
    Deep { at: u32 },
}

impl From<AllocError> for ParseFail {
    ghost use Rattle.ll_engine.specs.declared.fails.ParseFail.TheVariants.{Memory};

    ghost from_gives = { λ _ r. r ≡ Memory };

    fn from(_error: AllocError) -> ParseFail {
        ParseFail::Memory
    }
}
