//! Casts to types that one word names.

ghost use Rattle.std.specs.Prelude.{◌≡◌};
ghost use Rattle.typing_fits.specs.Operands.{SoundContext};
ghost use Rattle.typing_fits.specs.Sound.{Extends};
ghost use Rattle.typing_parts.specs.Typists.{AllCanType, IsReady};
ghost use Rattle.typing_steps.specs.Steps.{TypesTo};
ghost use Rattle.typing_values.specs.Children.{in_cast, in_dimensions};
ghost use Rattle.typing_values.specs.Parts as part;

use expr_type::{Halt, Valued};
use pattern_types::Operand;
use std::alloc::Global;
use sv_tree::{Cast, Dimension, Expr, KeywordType};
use typing_parts::{Known, Names};
use typing_paths::type_of_word;
use typing_patterns::by_type;

/// A cast to the type of a word with packed dimensions behind it.
#[tactic(auto, using(typing_parts::proofs::Keeping::keepings))]
pub fn to_word<S: Names, F: Fn(&Expr, &mut Known) -> Result<Operand, Halt>>(
    alloc: Global,
    names: &S,
    typed: &F,
    of: KeywordType,
    packed: &[Dimension],
    cast: &Cast,
    known: &mut Known,
) -> Result<Valued, Halt>
    requires names { SoundContext (S.context names.now) }
    requires dimensions { AllCanType _ _ (λ e. e.now) (λ k. k.now) (F.pre typed.now) (F.post typed.now) (S.context names.now) (in_dimensions packed.now) }
    requires can { AllCanType _ _ (λ e. e.now) (λ k. k.now) (F.pre typed.now) (F.post typed.now) (S.context names.now) (in_cast cast.now) }
    requires ready { IsReady known.old }
    ensures value { TypesTo result (part.to_word (S.context names.now) of packed.now cast.now known.old.functions) known.new.functions }
    ensures ready { IsReady known.new }
    ensures keeps { Extends known.old.functions known.new.functions }
{
    let t = type_of_word(alloc, names, typed, of, packed, known);
    by_type(alloc, names, typed, of.at, t, cast, known)
}
