//! Why a text isn't read.

ghost use Rattle.std.specs.Prelude.{◌≡◌};

use std::alloc::AllocError;
use sv_source::Text;

/// Why a text isn't read as a design.
#[derive(Drop)]
pub enum ReadFail {
    /// Want of memory.
    Memory,
    /// The text is none of the target language.
    NotVerilog {
        /// The rule that it breaks: 901 where its tokens fail by the grammar, 902 where it nests too deep or breaks a rule on names,
        /// limits or circles.
        rule: u16,
        /// The line of the token at which it does, from 1.
        line: u32,
        /// The token's column, from 1, counting bytes.
        col: u32,
        /// The token's text; `<end>` at the end of the text.
        word: Text,
    },
}

impl From<AllocError> for ReadFail {
    ghost use Rattle.v_reader.specs.declared.fails.ReadFail.TheVariants.{Memory};

    ghost from_gives = { λ _ r. r ≡ Memory };

    fn from(_error: AllocError) -> ReadFail {
        ReadFail::Memory
    }
}
