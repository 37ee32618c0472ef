//! Where expressions stand.

ghost use Rattle.std.specs.Prelude.{◌≡◌, IfOk};
ghost use Rattle.expr_type.specs.Answers.{source};
ghost use Rattle.expr_type.specs.Names as names;

use expr_type::Source;
use std::alloc::{AllocError, Global};
use sv_source::{Place, Spot, Text};

/// A token by its number, with its place and its word.
pub fn spot_at(alloc: Global, text: Source<'_>, token: u32) -> Result<Spot, AllocError>
    ensures { IfOk result (λ s. s ≡ names.spot (source text.entry) token) }
{
    match sv_source::at(text.tokens, token as usize) {
        Some(found) => Ok(Spot {
            at: token,
            place: found.place,
            word: found.text.copy(alloc)?,
        }),
        None => Ok(Spot {
            at: token,
            place: Place {
                file: 0,
                line: 1,
                col: 1,
            },
            word: Text::new(alloc),
        }),
    }
}
