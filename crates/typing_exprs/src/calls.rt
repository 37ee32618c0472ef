//! Calls of functions.

ghost use Rattle.std.specs.Prelude.{◌≡◌};
ghost use Rattle.typing_parts.specs.RoutineFits.{AllSoundFunctions};
ghost use Rattle.typing_walks.specs.Keeps.{Surrounded};
ghost use Rattle.typing_fits.specs.Sound.{Extends};
ghost use Rattle.typing_steps.specs.Steps.{TypesTo};
ghost use Rattle.typing_parts.specs.Operands.{as_operand};
ghost use Rattle.typing_parts.specs.Typists.{AllCanType, IsReady, MakesKnown};
ghost use Rattle.typing_exprs.specs.CastForms.{called_of};
ghost use Rattle.typing_exprs.specs.WalkLaws.{AllWritten, in_casts};

use crate::parentheses::as_plain;
use expr_type::Halt;
use pattern_types::Operand;
use std::alloc::Global;
use sv_source::Boxed;
use sv_tree::{Cast, Expr, QualifiedName};
use typing_calls::call;
use typing_parts::{Known, Names};
use typing_patterns::by_size;

/// A call of a function, or a cast to the size that it gives.
#[tactic(auto, using(typing_parts::proofs::Keeping::keepings))]
pub fn called<
    S: Names,
    F: Fn(&Expr, &mut Known) -> Result<Operand, Halt>,
    C: Fn(u32, &mut Known) -> Result<u32, Halt>,
>(
    alloc: Global,
    names: &S,
    needs: &C,
    typed: &F,
    of: QualifiedName,
    arguments: &[Expr],
    cast: &Option<Boxed<Cast>>,
    known: &mut Known,
) -> Result<Operand, Halt>
    requires needs { MakesKnown _ ((n : _) (k : _) → IsReady k.now → C.pre needs.now n k) (λ k. k.now) (C.post needs.now) (S.context names.now) }
    requires names { Surrounded AllSoundFunctions (S.context names.now) }
    requires written { AllWritten arguments.now }
    requires arguments { AllCanType _ _ (λ e. e.now) (λ k. k.now) (F.pre typed.now) (F.post typed.now) (S.context names.now) arguments.now }
    requires can { AllCanType _ _ (λ e. e.now) (λ k. k.now) (F.pre typed.now) (F.post typed.now) (S.context names.now) (in_casts cast.now) }
    requires ready { IsReady known.old }
    ensures value { TypesTo (as_operand (S.context names.now).source result) (called_of (S.context names.now) of arguments.now cast.now known.old.functions) known.new.functions }
    ensures ready { IsReady known.new }
    ensures keeps { Extends known.old.functions known.new.functions }
{
    let made = as_plain(call(alloc, names, needs, typed, of, arguments, known));
    match cast {
        None => made,
        Some(cast) => {
            let first = of.first_token();
            as_plain(by_size(alloc, names, typed, first, made, cast.get(), known))
        }
    }
}
