//! Parts of concatenations and streams, in the order of the text. Behind a part that breaks no rule and isn't whole the
//! others are looked at for their breaks.

ghost use Rattle.std.specs.Prelude.{◌≡◌, IfOk};
ghost use Rattle.operand_types.specs.Allowed.{AllNarrow, IsNarrowExpr};
ghost use Rattle.typing_fits.specs.Sound.{Extends};
ghost use Rattle.typing_steps.specs.Steps.{TypesTo};
ghost use Rattle.typing_parts.specs.Typists.{AllCanType, CanType, IsReady};
ghost use Rattle.typing_operators.specs.Lists.{part_expr, parts_of, streamed_expr, streamed_parts_of};

use expr_type::Halt;
use pattern_types::Operand;
use std::alloc::Global;
use sv_tree::Expr;
use sv_types::Exprs;
use typing_parts::{Known, Names};
use typing_rows::{add, all_whole};
use typing_values::{part, streamed};

// A part of a concatenation as an expression.
#[tactic(auto, using(crate::proofs::Putting::steps))]
fn part_expr<S: Names, F: Fn(&Expr, &mut Known) -> Result<Operand, Halt>>(
    names: &S,
    typed: &F,
    e: &Expr,
    known: &mut Known,
) -> Result<sv_types::Expr, Halt>
    requires can { CanType _ _ (λ e. e.now) (λ k. k.now) (F.pre typed.now) (F.post typed.now) (S.context names.now) e.now }
    requires ready { IsReady known.old }
    ensures value { TypesTo result (part_expr (S.context names.now) e.now known.old.functions) known.new.functions }
    ensures narrow { IfOk result IsNarrowExpr }
    ensures ready { IsReady known.new }
    ensures keeps { Extends known.old.functions known.new.functions }
{
    let v = part(names, typed, e, known)?;
    Ok(v.expr)
}

// A part of a stream as an expression.
#[tactic(auto, using(crate::proofs::Putting::steps))]
fn streamed_expr<S: Names, F: Fn(&Expr, &mut Known) -> Result<Operand, Halt>>(
    names: &S,
    typed: &F,
    e: &Expr,
    known: &mut Known,
) -> Result<sv_types::Expr, Halt>
    requires can { CanType _ _ (λ e. e.now) (λ k. k.now) (F.pre typed.now) (F.post typed.now) (S.context names.now) e.now }
    requires ready { IsReady known.old }
    ensures value { TypesTo result (streamed_expr (S.context names.now) e.now known.old.functions) known.new.functions }
    ensures narrow { IfOk result IsNarrowExpr }
    ensures ready { IsReady known.new }
    ensures keeps { Extends known.old.functions known.new.functions }
{
    let v = streamed(names, typed, e, known)?;
    Ok(v.expr)
}

/// The parts of a concatenation.
pub(crate) fn parts<S: Names, F: Fn(&Expr, &mut Known) -> Result<Operand, Halt>>(
    alloc: Global,
    names: &S,
    typed: &F,
    es: &[Expr],
    known: &mut Known,
) -> Result<Exprs, Halt>
    requires can { AllCanType _ _ (λ e. e.now) (λ k. k.now) (F.pre typed.now) (F.post typed.now) (S.context names.now) es.now }
    requires ready { IsReady known.old }
    ensures value { TypesTo result (parts_of (S.context names.now) es.now known.old.functions) known.new.functions }
    ensures narrow { IfOk result AllNarrow }
    ensures ready { IsReady known.new }
    ensures keeps { Extends known.old.functions known.new.functions }
{
    let mut made = Exprs::new(alloc);
    let mut whole = true;
    for e in es {
        whole = add(&mut made, whole, part_expr(names, typed, e, known))?;
    }
    all_whole(made, whole)
}

/// The parts of a stream.
pub(crate) fn streamed_parts<S: Names, F: Fn(&Expr, &mut Known) -> Result<Operand, Halt>>(
    alloc: Global,
    names: &S,
    typed: &F,
    es: &[Expr],
    known: &mut Known,
) -> Result<Exprs, Halt>
    requires can { AllCanType _ _ (λ e. e.now) (λ k. k.now) (F.pre typed.now) (F.post typed.now) (S.context names.now) es.now }
    requires ready { IsReady known.old }
    ensures value { TypesTo result (streamed_parts_of (S.context names.now) es.now known.old.functions) known.new.functions }
    ensures narrow { IfOk result AllNarrow }
    ensures ready { IsReady known.new }
    ensures keeps { Extends known.old.functions known.new.functions }
{
    let mut made = Exprs::new(alloc);
    let mut whole = true;
    for e in es {
        whole = add(&mut made, whole, streamed_expr(names, typed, e, known))?;
    }
    all_whole(made, whole)
}
