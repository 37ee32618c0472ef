//! Two bounds, and dimensions between them (IEEE 1800-2017 clauses 7.4 and 11.5.1).

ghost use Rattle.std.specs.Prelude.{◌≡◌};
ghost use Rattle.typing_fits.specs.Sound.{Extends};
ghost use Rattle.typing_steps.specs.Steps.{TypesTo};
ghost use Rattle.typing_parts.specs.Typists.{CanType, IsReady};
ghost use Rattle.typing_paths.specs.Dimensions.{bounds_of, range_of};

use expr_type::{Halt, Number};
use pattern_types::Operand;
use std::alloc::Global;
use sv_tree::Expr;
use type_texts::Dim;
use typing_parts::{Known, Names};
use typing_values::{behind_quiet, bound};

/// Two bounds in the order of the text, each a constant of 64 bits: where the first one isn't whole and breaks nothing, the second
/// one is looked at for its breaks.
#[tactic(auto, using(typing_steps::proofs::Combining::besides))]
pub fn bounds<S: Names, F: Fn(&Expr, &mut Known) -> Result<Operand, Halt>>(
    alloc: Global,
    names: &S,
    typed: &F,
    left: &Expr,
    right: &Expr,
    known: &mut Known,
) -> Result<(Number, Number), Halt>
    requires left { CanType _ _ (λ e. e.now) (λ k. k.now) (F.pre typed.now) (F.post typed.now) (S.context names.now) left.now }
    requires right { CanType _ _ (λ e. e.now) (λ k. k.now) (F.pre typed.now) (F.post typed.now) (S.context names.now) right.now }
    requires ready { IsReady known.old }
    ensures value { TypesTo result (bounds_of (S.context names.now) left.now right.now known.old.functions) known.new.functions }
    ensures ready { IsReady known.new }
    ensures keeps { Extends known.old.functions known.new.functions }
{
    match bound(alloc, names, typed, left, known) {
        Ok(first) => {
            let second = bound(alloc, names, typed, right, known)?;
            Ok((first, second))
        }
        Err(Halt::Memory) => Err(Halt::Memory),
        Err(Halt::Breaks { at, rule }) => Err(Halt::Breaks { at, rule }),
        Err(Halt::Quiet) => Err(behind_quiet(bound(alloc, names, typed, right, known))),
    }
}

// A dimension between two bounds.
fn between(opening: u32, left: Number, right: Number) -> Dim
    ensures { result ≡ record { opening = opening; left = left.number; right = right.number } }
{
    Dim {
        opening,
        left: left.number,
        right: right.number,
    }
}

/// A dimension between two bounds that are written.
#[tactic(auto, using(typing_steps::proofs::Combining::steps))]
pub fn range<S: Names, F: Fn(&Expr, &mut Known) -> Result<Operand, Halt>>(
    alloc: Global,
    names: &S,
    typed: &F,
    opening: u32,
    left: &Expr,
    right: &Expr,
    known: &mut Known,
) -> Result<Dim, Halt>
    requires left { CanType _ _ (λ e. e.now) (λ k. k.now) (F.pre typed.now) (F.post typed.now) (S.context names.now) left.now }
    requires right { CanType _ _ (λ e. e.now) (λ k. k.now) (F.pre typed.now) (F.post typed.now) (S.context names.now) right.now }
    requires ready { IsReady known.old }
    ensures value { TypesTo result (range_of (S.context names.now) opening left.now right.now known.old.functions) known.new.functions }
    ensures ready { IsReady known.new }
    ensures keeps { Extends known.old.functions known.new.functions }
{
    match bounds(alloc, names, typed, left, right, known) {
        Ok((left, right)) => Ok(between(opening, left, right)),
        Err(halt) => Err(halt),
    }
}
