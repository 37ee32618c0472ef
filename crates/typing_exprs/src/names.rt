//! Types by a word and names, behind which a cast to what they stand for may stand (IEEE 1800-2017 clause 6.24.1).

ghost use Rattle.std.specs.Prelude.{◌≡◌, map, true};
ghost use Rattle.routine_fits.specs.Sound.{AllSoundFunctions};
ghost use Rattle.typing_fits.specs.Operands.{SoundContext};
ghost use Rattle.typing_fits.specs.Sound.{Extends};
ghost use Rattle.typing_walks.specs.Keeps.{Surrounded};
ghost use Rattle.typing_walks.specs.Written as written;
ghost use Rattle.typing_steps.specs.Steps.{TypesTo};
ghost use Rattle.typing_parts.specs.Operands.{as_operand};
ghost use Rattle.typing_parts.specs.Typists.{AllCanType, IsReady};
ghost use Rattle.typing_operators.specs.TypingValues.{in_dimensions, in_selects};
ghost use Rattle.typing_exprs.specs.Casts.{name_of, word_of};
ghost use Rattle.typing_operators.specs.Children.{in_casts};

use crate::{named_path, plain_operand, to_name, to_word};
use expr_type::Halt;
use pattern_types::Operand;
use std::alloc::Global;
use sv_source::Boxed;
use sv_tree::{Cast, Dimension, Expr, KeywordType, QualifiedName, Select};
use typing_parts::{Known, Names};

/// The type of a word, which is no value, or a cast to it.
pub(crate) fn word<S: Names, F: Fn(&Expr, &mut Known) -> Result<Operand, Halt>>(
    alloc: Global,
    names: &S,
    typed: &F,
    of: KeywordType,
    packed: &[Dimension],
    cast: &Option<Boxed<Cast>>,
    known: &mut Known,
) -> Result<Operand, Halt>
    requires names { SoundContext (S.context names.now) }
    requires dimensions { AllCanType _ _ (λ e. e.now) (λ k. k.now) (F.pre typed.now) (F.post typed.now) (S.context names.now) (in_dimensions packed.now) }
    requires can { AllCanType _ _ (λ e. e.now) (λ k. k.now) (F.pre typed.now) (F.post typed.now) (S.context names.now) (in_casts cast.now) }
    requires ready { IsReady known.old }
    ensures value { TypesTo (as_operand (S.context names.now).source result) (word_of (S.context names.now) of packed.now cast.now known.old.functions) known.new.functions }
    ensures ready { IsReady known.new }
    ensures keeps { Extends known.old.functions known.new.functions }
{
    match cast {
        None => Err(Halt::Quiet),
        Some(cast) => plain_operand(to_word(alloc, names, typed, of, packed, cast.get(), known)),
    }
}

/// A name with the selects behind it, or a cast to what it stands for.
pub(crate) fn name<S: Names, F: Fn(&Expr, &mut Known) -> Result<Operand, Halt>>(
    alloc: Global,
    names: &S,
    typed: &F,
    of: QualifiedName,
    selects: &[Select],
    cast: &Option<Boxed<Cast>>,
    known: &mut Known,
) -> Result<Operand, Halt>
    requires names { Surrounded AllSoundFunctions (S.context names.now) }
    requires written { written.all (map written.select_written selects.now) ≡ true }
    requires selects { AllCanType _ _ (λ e. e.now) (λ k. k.now) (F.pre typed.now) (F.post typed.now) (S.context names.now) (in_selects selects.now) }
    requires can { AllCanType _ _ (λ e. e.now) (λ k. k.now) (F.pre typed.now) (F.post typed.now) (S.context names.now) (in_casts cast.now) }
    requires ready { IsReady known.old }
    ensures value { TypesTo (as_operand (S.context names.now).source result) (name_of (S.context names.now) of selects.now cast.now known.old.functions) known.new.functions }
    ensures ready { IsReady known.new }
    ensures keeps { Extends known.old.functions known.new.functions }
{
    match cast {
        None => plain_operand(named_path(alloc, names, typed, of, selects, known)),
        Some(cast) => plain_operand(to_name(alloc, names, typed, of, selects, cast.get(), known)),
    }
}
