//! Casts to what a name stands for.

ghost use Rattle.std.specs.Prelude.{◌≡◌, List, IfOk};
ghost use Rattle.expr_type.specs.Forms as form;
ghost use Rattle.expr_type.specs.Names.{Source};
ghost use Rattle.expr_type.specs.Typings.{Typing};
ghost use Rattle.expr_type.specs.declared.operand.Valued as values;
ghost use Rattle.sv_types.specs.declared.statement.Function.{Function};
ghost use Rattle.typing_fits.specs.Operands.{SoundContext};
ghost use Rattle.typing_fits.specs.Sound.{Extends};
ghost use Rattle.typing_parts.specs.Operands.{as_operand};
ghost use Rattle.typing_parts.specs.Typists.{AllCanType, FitsIfOk, IsReady};
ghost use Rattle.typing_steps.specs.Steps.{TypesTo};
ghost use Rattle.typing_exprs.specs.Named.{PathFits, size_named};
ghost use Rattle.typing_values.specs.Children.{in_cast, in_selects};
ghost use Rattle.typing_values.specs.Numbers.{CanBeValued};
ghost use Rattle.typing_values.specs.Parts as part;

use expr_type::{Halt, Valued};
use pattern_types::Operand;
use std::alloc::Global;
use sv_tree::{Cast, Expr, QualifiedName, Select};
use typing_parts::{Known, Names};
use typing_paths::{dimensioned, named_path, type_of_name};
use typing_patterns::{by_size, by_type};

/// A value as an operand.
#[tactic(auto, using(crate::proofs::Naming::plains))]
pub fn plain_operand(v: Result<Valued, Halt>) -> Result<Operand, Halt>
    ensures value { (k : Source) (x : Typing values.Valued) (fs gs : List Function) → TypesTo v (x fs) gs → TypesTo (as_operand k result) (form.plain x fs) gs }
    ensures fits { (fs : List Function) → IfOk v (CanBeValued fs) → FitsIfOk result fs }
{
    match v {
        Ok(v) => Ok(Operand::Plain(v)),
        Err(halt) => Err(halt),
    }
}

// A cast to the size that a name with selects behind it gives.
#[tactic(auto, using(typing_parts::proofs::Keeping::keepings))]
fn to_size<S: Names, F: Fn(&Expr, &mut Known) -> Result<Operand, Halt>>(
    alloc: Global,
    names: &S,
    typed: &F,
    of: QualifiedName,
    selects: &[Select],
    cast: &Cast,
    known: &mut Known,
) -> Result<Valued, Halt>
    requires names { SoundContext (S.context names.now) }
    requires fits { PathFits (S.context names.now) of selects.now known.old.functions }
    requires selects { AllCanType _ _ (λ e. e.now) (λ k. k.now) (F.pre typed.now) (F.post typed.now) (S.context names.now) (in_selects selects.now) }
    requires can { AllCanType _ _ (λ e. e.now) (λ k. k.now) (F.pre typed.now) (F.post typed.now) (S.context names.now) (in_cast cast.now) }
    requires ready { IsReady known.old }
    ensures value { TypesTo result (size_named (S.context names.now) of selects.now cast.now known.old.functions) known.new.functions }
    ensures ready { IsReady known.new }
    ensures keeps { Extends known.old.functions known.new.functions }
{
    let v = named_path(alloc, names, typed, of, selects, known);
    let size = plain_operand(v);
    by_size(alloc, names, typed, of.first_token(), size, cast, known)
}

/// A cast to what a name with selects behind it stands for: a type, of which the selects are packed dimensions, or a size. That a size
/// can be valued is asked of what names it (`PathFits`).
#[tactic(auto, using(crate::proofs::Naming::names, typing_parts::proofs::Keeping::keepings))]
pub fn to_name<S: Names, F: Fn(&Expr, &mut Known) -> Result<Operand, Halt>>(
    alloc: Global,
    names: &S,
    typed: &F,
    of: QualifiedName,
    selects: &[Select],
    cast: &Cast,
    known: &mut Known,
) -> Result<Valued, Halt>
    requires names { SoundContext (S.context names.now) }
    requires fits { PathFits (S.context names.now) of selects.now known.old.functions }
    requires selects { AllCanType _ _ (λ e. e.now) (λ k. k.now) (F.pre typed.now) (F.post typed.now) (S.context names.now) (in_selects selects.now) }
    requires can { AllCanType _ _ (λ e. e.now) (λ k. k.now) (F.pre typed.now) (F.post typed.now) (S.context names.now) (in_cast cast.now) }
    requires ready { IsReady known.old }
    ensures value { TypesTo result (part.to_name (S.context names.now) of selects.now cast.now known.old.functions) known.new.functions }
    ensures ready { IsReady known.new }
    ensures keeps { Extends known.old.functions known.new.functions }
{
    match type_of_name(names, of) {
        Some(t) => {
            let t = dimensioned(alloc, names, typed, t, selects, known);
            by_type(alloc, names, typed, of.first_token(), t, cast, known)
        }
        None => to_size(alloc, names, typed, of, selects, cast, known),
    }
}
