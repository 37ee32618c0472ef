//! Steps of paths (IEEE 1800-2017 clauses 7.2.1, 7.4.5, 7.4.6 and 11.5.1).

ghost use Rattle.std.specs.Prelude.{IfOk, true, false};
ghost use Rattle.select_types.specs.Selected.{StepFits};
ghost use Rattle.typing_fits.specs.Sound.{Extends};
ghost use Rattle.typing_steps.specs.Steps.{TypesTo};
ghost use Rattle.typing_parts.specs.Typists.{AllCanType, CanType, IsReady};
ghost use Rattle.typing_paths.specs.TypingValues.{in_select};
ghost use Rattle.typing_paths.specs.Paths.{SlidesFit, index_step_of, part_of, slide_of, sliding_of, step_of};
ghost use Rattle.sv_tree.specs.declared.operators.PartOperator.TheVariants as W;

use crate::{behind_quiet, bounds, index, width};
use expr_type::{Halt, Number, Step, Valued};
use pattern_types::Operand;
use std::alloc::Global;
use sv_tree::{Expr, PartOperator, Select};
use typing_parts::{Known, Names};

// A base and a width in the order of the text.
#[tactic(auto, using(typing_steps::proofs::Combining::besides, typing_parts::proofs::Keeping::keepings))]
fn sliding<S: Names, F: Fn(&Expr, &mut Known) -> Result<Operand, Halt>>(
    alloc: Global,
    names: &S,
    typed: &F,
    left: &Expr,
    right: &Expr,
    known: &mut Known,
) -> Result<(Valued, Number), Halt>
    requires left { CanType _ _ (λ e. e.now) (λ k. k.now) (F.pre typed.now) (F.post typed.now) (S.context names.now) left.now }
    requires right { CanType _ _ (λ e. e.now) (λ k. k.now) (F.pre typed.now) (F.post typed.now) (S.context names.now) right.now }
    requires ready { IsReady known.old }
    ensures value { TypesTo result (sliding_of (S.context names.now) left.now right.now known.old.functions) known.new.functions }
    ensures fits { IfOk result SlidesFit }
    ensures ready { IsReady known.new }
    ensures keeps { Extends known.old.functions known.new.functions }
{
    match index(names, typed, left, known) {
        Ok(base) => {
            let width = width(alloc, names, typed, right, known)?;
            Ok((base, width))
        }
        Err(Halt::Memory) => Err(Halt::Memory),
        Err(Halt::Breaks { at, rule }) => Err(Halt::Breaks { at, rule }),
        Err(Halt::Quiet) => Err(behind_quiet(width(alloc, names, typed, right, known))),
    }
}

// `[base+:width]` or `[base-:width]`
#[tactic(auto, using(typing_steps::proofs::Combining::steps))]
fn slide<S: Names, F: Fn(&Expr, &mut Known) -> Result<Operand, Halt>>(
    alloc: Global,
    names: &S,
    typed: &F,
    opening: u32,
    up: bool,
    left: &Expr,
    right: &Expr,
    known: &mut Known,
) -> Result<Step, Halt>
    requires left { CanType _ _ (λ e. e.now) (λ k. k.now) (F.pre typed.now) (F.post typed.now) (S.context names.now) left.now }
    requires right { CanType _ _ (λ e. e.now) (λ k. k.now) (F.pre typed.now) (F.post typed.now) (S.context names.now) right.now }
    requires ready { IsReady known.old }
    ensures value { TypesTo result (slide_of (S.context names.now) opening up left.now right.now known.old.functions) known.new.functions }
    ensures fits { IfOk result StepFits }
    ensures ready { IsReady known.new }
    ensures keeps { Extends known.old.functions known.new.functions }
{
    match sliding(alloc, names, typed, left, right, known) {
        Ok((base, width)) => Ok(Step::Slide {
            opening,
            up,
            base,
            width,
        }),
        Err(halt) => Err(halt),
    }
}

// `[left:right]`
#[tactic(auto, using(typing_steps::proofs::Combining::steps))]
fn part<S: Names, F: Fn(&Expr, &mut Known) -> Result<Operand, Halt>>(
    alloc: Global,
    names: &S,
    typed: &F,
    opening: u32,
    left: &Expr,
    right: &Expr,
    known: &mut Known,
) -> Result<Step, Halt>
    requires left { CanType _ _ (λ e. e.now) (λ k. k.now) (F.pre typed.now) (F.post typed.now) (S.context names.now) left.now }
    requires right { CanType _ _ (λ e. e.now) (λ k. k.now) (F.pre typed.now) (F.post typed.now) (S.context names.now) right.now }
    requires ready { IsReady known.old }
    ensures value { TypesTo result (part_of (S.context names.now) W.Range opening left.now right.now known.old.functions) known.new.functions }
    ensures fits { IfOk result StepFits }
    ensures ready { IsReady known.new }
    ensures keeps { Extends known.old.functions known.new.functions }
{
    match bounds(alloc, names, typed, left, right, known) {
        Ok((left, right)) => Ok(Step::Part {
            opening,
            left,
            right,
        }),
        Err(halt) => Err(halt),
    }
}

// `[left:right]`, `[base+:width]` or `[base-:width]`
fn part_step<S: Names, F: Fn(&Expr, &mut Known) -> Result<Operand, Halt>>(
    alloc: Global,
    names: &S,
    typed: &F,
    operator: PartOperator,
    opening: u32,
    left: &Expr,
    right: &Expr,
    known: &mut Known,
) -> Result<Step, Halt>
    requires left { CanType _ _ (λ e. e.now) (λ k. k.now) (F.pre typed.now) (F.post typed.now) (S.context names.now) left.now }
    requires right { CanType _ _ (λ e. e.now) (λ k. k.now) (F.pre typed.now) (F.post typed.now) (S.context names.now) right.now }
    requires ready { IsReady known.old }
    ensures value { TypesTo result (part_of (S.context names.now) operator opening left.now right.now known.old.functions) known.new.functions }
    ensures fits { IfOk result StepFits }
    ensures ready { IsReady known.new }
    ensures keeps { Extends known.old.functions known.new.functions }
{
    match operator {
        PartOperator::Range => part(alloc, names, typed, opening, left, right, known),
        PartOperator::Up => slide(alloc, names, typed, opening, true, left, right, known),
        PartOperator::Down => slide(alloc, names, typed, opening, false, left, right, known),
    }
}

// `[index]`
#[tactic(auto, using(typing_steps::proofs::Combining::steps))]
fn index_step<S: Names, F: Fn(&Expr, &mut Known) -> Result<Operand, Halt>>(
    names: &S,
    typed: &F,
    opening: u32,
    e: &Expr,
    known: &mut Known,
) -> Result<Step, Halt>
    requires can { CanType _ _ (λ e. e.now) (λ k. k.now) (F.pre typed.now) (F.post typed.now) (S.context names.now) e.now }
    requires ready { IsReady known.old }
    ensures value { TypesTo result (index_step_of (S.context names.now) opening e.now known.old.functions) known.new.functions }
    ensures fits { IfOk result StepFits }
    ensures ready { IsReady known.new }
    ensures keeps { Extends known.old.functions known.new.functions }
{
    let index = index(names, typed, e, known)?;
    Ok(Step::Index { opening, index })
}

/// A step of a path, with what stands in it: an index of at most 64 bits (E507), constant bounds or a constant width (E411).
pub fn step<S: Names, F: Fn(&Expr, &mut Known) -> Result<Operand, Halt>>(
    alloc: Global,
    names: &S,
    typed: &F,
    select: &Select,
    known: &mut Known,
) -> Result<Step, Halt>
    requires can { AllCanType _ _ (λ e. e.now) (λ k. k.now) (F.pre typed.now) (F.post typed.now) (S.context names.now) (in_select select.now) }
    requires ready { IsReady known.old }
    ensures value { TypesTo result (step_of (S.context names.now) select.now known.old.functions) known.new.functions }
    ensures fits { IfOk result StepFits }
    ensures ready { IsReady known.new }
    ensures keeps { Extends known.old.functions known.new.functions }
{
    match select {
        Select::Member { name, .. } => Ok(Step::Member(*name)),
        Select::Index { opening, index, .. } => { index_step(names, typed, *opening, index, known) }
        Select::Part {
            opening,
            left,
            operator,
            right,
            ..
        } => part_step(alloc, names, typed, *operator, *opening, left, right, known),
    }
}
