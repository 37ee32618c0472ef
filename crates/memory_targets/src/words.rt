//! Words of memories as selects.

ghost use Rattle.std.specs.Prelude.{◌≡◌, IfOk};
ghost use Rattle.lowering_laws.specs.Terms.{and_guard};
ghost use Rattle.v_meaning.specs.Values.{sel_meaning};
ghost use Rattle.path_flatten.specs.Guards.{guard_meaning};
ghost use Rattle.memory_targets.specs.Words.{word_sel, word_guard};

use path_flatten::{Rank, copy_expr};
use std::alloc::{AllocError, Global};
use v_build::{bit_select, both, decimal_bit};
use v_tree::{VExpr, VSel};

/// A word of a memory: by its number, or by an expression that is its number where a guard holds.
#[derive(Drop)]
pub enum Word {
    /// A decimal number.
    Known(u32),
    /// A number and its guard.
    Lowered(Rank),
}

/// The select of a word.
pub(crate) fn word_select(alloc: Global, word: &Word) -> Result<VSel, AllocError>
    ensures { IfOk result (λ s. sel_meaning s ≡ word_sel word.now) }
{
    match word {
        Word::Known(number) => Ok(decimal_bit(*number)),
        Word::Lowered(rank) => {
            let number = copy_expr(alloc, &rank.rank)?;
            bit_select(alloc, number)
        }
    }
}

/// A copy of a guard.
pub(crate) fn guard_copy(alloc: Global, guard: &Option<VExpr>) -> Result<Option<VExpr>, AllocError>
    ensures { IfOk result (λ g. guard_meaning g ≡ guard_meaning guard.now) }
{
    match guard {
        None => Ok(None),
        Some(guard) => Ok(Some(copy_expr(alloc, guard)?)),
    }
}

/// The guard of a word.
pub(crate) fn guard_of(alloc: Global, word: &Word) -> Result<Option<VExpr>, AllocError>
    ensures { IfOk result (λ g. guard_meaning g ≡ word_guard word.now) }
{
    match word {
        Word::Known(_) => Ok(None),
        Word::Lowered(rank) => guard_copy(alloc, &rank.guard),
    }
}

/// Two guards, the second one valued besides.
pub(crate) fn joined_guard(
    alloc: Global,
    outer: Option<VExpr>,
    inner: Option<VExpr>,
) -> Result<Option<VExpr>, AllocError>
    ensures { IfOk result (λ g. guard_meaning g ≡ and_guard (guard_meaning outer) (guard_meaning inner)) }
{
    match outer {
        None => Ok(inner),
        Some(outer) => match inner {
            None => Ok(Some(outer)),
            Some(inner) => {
                let made = both(alloc, outer, inner)?;
                Ok(Some(made))
            }
        },
    }
}
