//! Expressions in parentheses.

ghost use Rattle.std.specs.Prelude.{◌≡◌, List, IfOk};
ghost use Rattle.expr_type.specs.Expressions.{meaning};
ghost use Rattle.expr_type.specs.Forms as form;
ghost use Rattle.expr_type.specs.Names.{Source};
ghost use Rattle.expr_type.specs.Typings.{Typing};
ghost use Rattle.expr_type.specs.declared.operand.Valued as values;
ghost use Rattle.sv_types.specs.declared.statement.Function.{Function};
ghost use Rattle.typing_fits.specs.Operands.{SoundContext};
ghost use Rattle.typing_fits.specs.Sound.{Extends};
ghost use Rattle.typing_steps.specs.Steps.{TypesTo};
ghost use Rattle.typing_parts.specs.Operands.{as_operand};
ghost use Rattle.typing_parts.specs.Typists.{AllCanType, CanType, FitsIfOk, IsReady};
ghost use Rattle.typing_patterns.specs.TypingValues.{CanBeValued};
ghost use Rattle.typing_exprs.specs.CastForms.{parenthesized_of};
ghost use Rattle.typing_exprs.specs.WalkLaws.{in_casts};

use crate::as_parenthesized;
use expr_type::{Halt, Valued};
use pattern_types::Operand;
use std::alloc::Global;
use sv_source::Boxed;
use sv_tree::{Cast, Expr};
use typing_parts::{Known, Names};
use typing_patterns::by_size;

/// A value as an operand, which can be valued as a constant where the value can.
#[tactic(auto, using(crate::proofs::CastFormsCasting::plains))]
pub fn as_plain(v: Result<Valued, Halt>) -> Result<Operand, Halt>
    ensures value { (k : Source) (x : Typing values.Valued) (fs gs : List Function) → TypesTo v (x fs) gs → TypesTo (as_operand k result) (form.plain x fs) gs }
    ensures fits { (fs : List Function) → IfOk v (CanBeValued fs) → FitsIfOk result fs }
{
    match v {
        Ok(v) => Ok(Operand::Plain(v)),
        Err(halt) => Err(halt),
    }
}

// An expression as an operand.
fn operand<S: Names, F: Fn(&Expr, &mut Known) -> Result<Operand, Halt>>(
    names: &S,
    typed: &F,
    e: &Expr,
    known: &mut Known,
) -> Result<Operand, Halt>
    requires can { CanType _ _ (λ e. e.now) (λ k. k.now) (F.pre typed.now) (F.post typed.now) (S.context names.now) e.now }
    requires ready { IsReady known.old }
    ensures value { TypesTo (as_operand (S.context names.now).source result) ((meaning e.now).typed (S.context names.now) known.old.functions) known.new.functions }
    ensures fits { FitsIfOk result known.new.functions }
    ensures ready { IsReady known.new }
    ensures keeps { Extends known.old.functions known.new.functions }
{
    typed(e, known)
}

/// `(value)`, which begins at its `(`, or a cast to the size that it gives.
#[tactic(auto, using(typing_parts::proofs::Keeping::keepings))]
pub fn parenthesized<S: Names, F: Fn(&Expr, &mut Known) -> Result<Operand, Halt>>(
    alloc: Global,
    names: &S,
    typed: &F,
    opening: u32,
    value: &Expr,
    cast: &Option<Boxed<Cast>>,
    known: &mut Known,
) -> Result<Operand, Halt>
    requires names { SoundContext (S.context names.now) }
    requires value { CanType _ _ (λ e. e.now) (λ k. k.now) (F.pre typed.now) (F.post typed.now) (S.context names.now) value.now }
    requires can { AllCanType _ _ (λ e. e.now) (λ k. k.now) (F.pre typed.now) (F.post typed.now) (S.context names.now) (in_casts cast.now) }
    requires ready { IsReady known.old }
    ensures value { TypesTo (as_operand (S.context names.now).source result) (parenthesized_of (S.context names.now) opening value.now cast.now known.old.functions) known.new.functions }
    ensures ready { IsReady known.new }
    ensures keeps { Extends known.old.functions known.new.functions }
{
    let inner = operand(names, typed, value, known);
    match cast {
        None => as_parenthesized(opening, inner),
        Some(cast) => as_plain(by_size(alloc, names, typed, opening, inner, cast.get(), known)),
    }
}
