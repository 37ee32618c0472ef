ghost use Rattle.std.specs.Prelude.{◌≡◌};
ghost use Rattle.sv_source.specs.declared.refusal.Fail.TheVariants.{Memory};

use crate::{Items, Place, Text};
use std::alloc::{AllocError, AllocFailed};

/// Why a source is refused: the rule that it breaks, and where.
#[derive(Drop, Debug)]
pub struct Refusal {
    /// The rule's number, as 302 for E302.
    pub rule: u16,
    /// The place of the token that breaks it.
    pub place: Place,
    /// That token's text.
    pub word: Text,
}

/// Why a stage has no result.
#[derive(Drop, Debug)]
pub enum Fail {
    /// Want of memory.
    Memory,
    /// The source is refused.
    Refused(Refusal),
}

impl From<AllocError> for Fail {
    ghost from_gives = { λ _ fail. fail ≡ Memory };

    fn from(_: AllocError) -> Self {
        Fail::Memory
    }
}

impl<T: Drop> From<AllocFailed<T>> for Fail {
    ghost from_gives = { λ _ fail. fail ≡ Memory };

    fn from(_: AllocFailed<T>) -> Self {
        Fail::Memory
    }
}

impl From<Refusal> for Fail {
    ghost use Rattle.sv_source.specs.declared.refusal.Fail.TheVariants.{Refused};

    ghost from_gives = { λ refusal fail. fail ≡ Refused refusal };

    fn from(refusal: Refusal) -> Self {
        Fail::Refused(refusal)
    }
}

/// The names of the files, by the number in a place.
pub type FileNames = Items<Text>;
