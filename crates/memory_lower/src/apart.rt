//! What is named by a path in a word of which nothing is written (IEEE 1800-2017 clause 9.4.2.2).

ghost use Rattle.std.specs.Prelude.{◌≡◌, [], ◌∷◌, IfOk};
ghost use Rattle.b4_core.specs.declared.bit.Bit4.TheVariants.{Zero};
ghost use Rattle.v_meaning.specs.Values as means;
ghost use Rattle.v_meaning.specs.Values.{meaning};
ghost use Rattle.memory_lower.specs.Named.{NamesApart, NamesGuard, NamesRank, NamesWith};

use b4_core::{Bit4, Vec4};
use memory_targets::Word;
use path_flatten::{Rank, copy_expr};
use std::alloc::{AllocError, Global};
use v_build::{both, literal};
use v_tree::VExpr;

/// A condition that never holds.
fn never(alloc: Global) -> Result<VExpr, AllocError>
    ensures { IfOk result (λ m. meaning m ≡ means.literal (Zero ∷ [])) }
{
    let bits = Vec4::from_slice(alloc, &[Bit4::Zero])?;
    Ok(literal(bits))
}

/// An expression, or a condition that never holds.
fn or_never(alloc: Global, named: Option<VExpr>) -> Result<VExpr, AllocError>
    ensures { IfOk result (λ m. NamesApart named (meaning m)) }
{
    match named {
        None => never(alloc),
        Some(e) => Ok(e),
    }
}

/// A condition, and an expression besides.
fn besides(alloc: Global, guard: VExpr, e: &VExpr) -> Result<VExpr, AllocError>
    ensures { IfOk result (λ m. meaning m ≡ means.both (meaning guard) (meaning e.now)) }
{
    let (guard, e) = pairs::both(Ok(guard), copy_expr(alloc, e))?;
    both(alloc, guard, e)
}

/// A condition, and a guard besides.
fn with_guard(alloc: Global, e: VExpr, guard: &Option<VExpr>) -> Result<VExpr, AllocError>
    ensures { IfOk result (λ m. NamesGuard (meaning e) guard.now (meaning m)) }
{
    match guard {
        None => Ok(e),
        Some(guard) => besides(alloc, e, guard),
    }
}

/// A condition, and a word's guard and number besides.
fn with_rank(alloc: Global, e: VExpr, rank: &Rank) -> Result<VExpr, AllocError>
    ensures { IfOk result (λ m. NamesRank (meaning e) rank.now (meaning m)) }
{
    let guarded = with_guard(alloc, e, &rank.guard)?;
    besides(alloc, guarded, &rank.rank)
}

/// What names a word where nothing is written: an expression that names what one before does besides, and holds only where that does.
pub(crate) fn with_word(
    alloc: Global,
    word: &Word,
    named: Option<VExpr>,
) -> Result<Option<VExpr>, AllocError>
    ensures { IfOk result (NamesWith word.now named) }
{
    match word {
        Word::Known(_) => Ok(named),
        Word::Lowered(rank) => {
            let apart = or_never(alloc, named)?;
            let made = with_rank(alloc, apart, rank)?;
            Ok(Some(made))
        }
    }
}
