//! Actuals as they are typed.

ghost use Rattle.typing_fits.specs.Sound.{Extends};
ghost use Rattle.typing_steps.specs.Steps.{TypesTo};
ghost use Rattle.pattern_types.specs.Meaning.{operand_of};
ghost use Rattle.typing_parts.specs.Typists.{AllCanType, IsReady};
ghost use Rattle.typing_calls.specs.Calls.{actuals_of};
ghost use Rattle.typing_calls.specs.Lists.{all_meant};

use crate::lists::followed;
use expr_type::Halt;
use pattern_types::Operand;
use std::alloc::Global;
use sv_tree::Expr;
use typing_parts::{Known, Names};
use typing_values::unstreamed;

/// What is passed in a call, in the order of the text: no stream can stand there (E512). All are looked at, also behind one that isn't
/// whole.
pub fn actuals<S: Names, F: Fn(&Expr, &mut Known) -> Result<Operand, Halt>>(
    alloc: Global,
    names: &S,
    typed: &F,
    es: &[Expr],
    known: &mut Known,
) -> Result<Vec<Operand>, Halt>
    requires can { AllCanType _ _ (λ e. e.now) (λ k. k.now) (F.pre typed.now) (F.post typed.now) (S.context names.now) es.now }
    requires ready { IsReady known.old }
    ensures value { TypesTo (all_meant (operand_of (S.context names.now).source) result) (actuals_of (S.context names.now) es.now known.old.functions) known.new.functions }
    ensures ready { IsReady known.new }
    ensures keeps { Extends known.old.functions known.new.functions }
{
    let mut made: Result<Vec<Operand>, Halt> = Ok(Vec::new(alloc));
    for e in es {
        made = followed(made, unstreamed(names, typed, e, known));
    }
    made
}
