//! Dimensions as they are written, and selects behind the name of a type, which are dimensions too (IEEE 1800-2017 clause 7.4).

ghost use Rattle.std.specs.Prelude.{◌≡◌, List, ◌∷◌, [], ◌++◌};
ghost use Rattle.sv_types.specs.declared.statement.Function.{Function};
ghost use Rattle.expr_type.specs.KeywordTypes as written;
ghost use Rattle.expr_type.specs.Typings.{Typing, all};
ghost use Rattle.typing_fits.specs.Sound.{Extends};
ghost use Rattle.typing_steps.specs.Steps.{TypesTo};
ghost use Rattle.typing_parts.specs.Typists.{AllCanType, CanType, IsReady};
ghost use Rattle.typing_values.specs.Children.{in_dimension, in_dimensions, in_select, in_selects};
ghost use Rattle.typing_values.specs.Parts as part;
ghost use Rattle.typing_paths.specs.Dimensions.{AddsTo, dimension_of, select_dimension_of, select_dimensions_of, size_of};

use crate::ranges::range;
use expr_type::Halt;
use pattern_types::Operand;
use std::alloc::Global;
use sv_source::Items;
use sv_tree::{Dimension, Expr, PartOperator, Select};
use type_texts::Dim;
use typing_parts::{Known, Names};
use typing_values::{behind_quiet, number};

/// Dimensions, the outermost one first.
pub type Dims = Items<Dim>;

// A dimension of so many elements, from 0 on.
#[tactic(auto, using(typing_steps::proofs::Combining::steps))]
fn sized<S: Names, F: Fn(&Expr, &mut Known) -> Result<Operand, Halt>>(
    alloc: Global,
    names: &S,
    typed: &F,
    opening: u32,
    size: &Expr,
    known: &mut Known,
) -> Result<Dim, Halt>
    requires can { CanType _ _ (λ e. e.now) (λ k. k.now) (F.pre typed.now) (F.post typed.now) (S.context names.now) size.now }
    requires ready { IsReady known.old }
    ensures value { TypesTo result (size_of (S.context names.now) opening size.now known.old.functions) known.new.functions }
    ensures ready { IsReady known.new }
    ensures keeps { Extends known.old.functions known.new.functions }
{
    let count = number(alloc, names, typed, 1, i64::MAX, size, known)?;
    Ok(Dim {
        opening,
        left: 0,
        right: count.number - 1,
    })
}

// A dimension: `[size]` is `[0:size-1]`.
fn dimension<S: Names, F: Fn(&Expr, &mut Known) -> Result<Operand, Halt>>(
    alloc: Global,
    names: &S,
    typed: &F,
    d: &Dimension,
    known: &mut Known,
) -> Result<Dim, Halt>
    requires can { AllCanType _ _ (λ e. e.now) (λ k. k.now) (F.pre typed.now) (F.post typed.now) (S.context names.now) (in_dimension d.now) }
    requires ready { IsReady known.old }
    ensures value { TypesTo result (dimension_of (S.context names.now) d.now known.old.functions) known.new.functions }
    ensures ready { IsReady known.new }
    ensures keeps { Extends known.old.functions known.new.functions }
{
    match d {
        Dimension::Size { opening, size, .. } => {
            sized(alloc, names, typed, *opening, size, known)
        }
        Dimension::Range {
            opening,
            left,
            right,
            ..
        } => range(alloc, names, typed, *opening, left, right, known),
    }
}

// One more dimension behind others that are whole.
fn with_last(mut dims: Dims, last: Result<Dim, Halt>) -> Result<Dims, Halt>
    ensures { AddsTo dims last result }
{
    match last {
        Ok(dim) => {
            dims.push(dim)?;
            Ok(dims)
        }
        Err(halt) => Err(halt),
    }
}

// One more dimension behind others: where these aren't whole and break nothing, it is looked at for its breaks.
#[tactic(auto, using(typing_steps::proofs::Turns::turns))]
fn next_dimension<S: Names, F: Fn(&Expr, &mut Known) -> Result<Operand, Halt>>(
    alloc: Global,
    names: &S,
    typed: &F,
    dims: Result<Dims, Halt>,
    d: &Dimension,
    known: &mut Known,
) -> Result<Dims, Halt>
    requires can { AllCanType _ _ (λ e. e.now) (λ k. k.now) (F.pre typed.now) (F.post typed.now) (S.context names.now) (in_dimension d.now) }
    requires ready { IsReady known.old }
    ensures value { (xs : List (Typing written.Dim)) (fs : List Function) → TypesTo dims (all xs fs) known.old.functions → TypesTo result (all (xs ++ dimension_of (S.context names.now) d.now ∷ []) fs) known.new.functions }
    ensures ready { IsReady known.new }
    ensures keeps { Extends known.old.functions known.new.functions }
{
    match dims {
        Ok(made) => with_last(made, dimension(alloc, names, typed, d, known)),
        Err(Halt::Memory) => Err(Halt::Memory),
        Err(Halt::Breaks { at, rule }) => Err(Halt::Breaks { at, rule }),
        Err(Halt::Quiet) => Err(behind_quiet(dimension(alloc, names, typed, d, known))),
    }
}

/// Dimensions as they are written, the outermost one first.
pub fn dimensions<S: Names, F: Fn(&Expr, &mut Known) -> Result<Operand, Halt>>(
    alloc: Global,
    names: &S,
    typed: &F,
    ds: &[Dimension],
    known: &mut Known,
) -> Result<Dims, Halt>
    requires can { AllCanType _ _ (λ e. e.now) (λ k. k.now) (F.pre typed.now) (F.post typed.now) (S.context names.now) (in_dimensions ds.now) }
    requires ready { IsReady known.old }
    ensures value { TypesTo result (part.dimensions_of (S.context names.now) ds.now known.old.functions) known.new.functions }
    ensures ready { IsReady known.new }
    ensures keeps { Extends known.old.functions known.new.functions }
{
    let mut dims = Ok(Dims::new(alloc));
    for d in ds {
        dims = next_dimension(alloc, names, typed, dims, d, known);
    }
    dims
}

// A select behind the name of a type as a dimension: a range is one, and what else stands there isn't whole and breaks nothing here.
fn select_dimension<S: Names, F: Fn(&Expr, &mut Known) -> Result<Operand, Halt>>(
    alloc: Global,
    names: &S,
    typed: &F,
    select: &Select,
    known: &mut Known,
) -> Result<Dim, Halt>
    requires can { AllCanType _ _ (λ e. e.now) (λ k. k.now) (F.pre typed.now) (F.post typed.now) (S.context names.now) (in_select select.now) }
    requires ready { IsReady known.old }
    ensures value { TypesTo result (select_dimension_of (S.context names.now) select.now known.old.functions) known.new.functions }
    ensures ready { IsReady known.new }
    ensures keeps { Extends known.old.functions known.new.functions }
{
    match select {
        Select::Member { .. } => Err(Halt::Quiet),
        Select::Index { .. } => Err(Halt::Quiet),
        Select::Part {
            opening,
            left,
            operator,
            right,
            ..
        } => match operator {
            PartOperator::Range => range(alloc, names, typed, *opening, left, right, known),
            PartOperator::Up => Err(Halt::Quiet),
            PartOperator::Down => Err(Halt::Quiet),
        },
    }
}

// One more select as a dimension behind others.
#[tactic(auto, using(typing_steps::proofs::Turns::turns))]
fn next_select<S: Names, F: Fn(&Expr, &mut Known) -> Result<Operand, Halt>>(
    alloc: Global,
    names: &S,
    typed: &F,
    dims: Result<Dims, Halt>,
    select: &Select,
    known: &mut Known,
) -> Result<Dims, Halt>
    requires can { AllCanType _ _ (λ e. e.now) (λ k. k.now) (F.pre typed.now) (F.post typed.now) (S.context names.now) (in_select select.now) }
    requires ready { IsReady known.old }
    ensures value { (xs : List (Typing written.Dim)) (fs : List Function) → TypesTo dims (all xs fs) known.old.functions → TypesTo result (all (xs ++ select_dimension_of (S.context names.now) select.now ∷ []) fs) known.new.functions }
    ensures ready { IsReady known.new }
    ensures keeps { Extends known.old.functions known.new.functions }
{
    match dims {
        Ok(made) => with_last(made, select_dimension(alloc, names, typed, select, known)),
        Err(Halt::Memory) => Err(Halt::Memory),
        Err(Halt::Breaks { at, rule }) => Err(Halt::Breaks { at, rule }),
        Err(Halt::Quiet) => Err(behind_quiet(select_dimension(alloc, names, typed, select, known))),
    }
}

/// Selects behind the name of a type as its dimensions, the outermost one first. One that is no range isn't whole.
pub fn select_dimensions<S: Names, F: Fn(&Expr, &mut Known) -> Result<Operand, Halt>>(
    alloc: Global,
    names: &S,
    typed: &F,
    selects: &[Select],
    known: &mut Known,
) -> Result<Dims, Halt>
    requires can { AllCanType _ _ (λ e. e.now) (λ k. k.now) (F.pre typed.now) (F.post typed.now) (S.context names.now) (in_selects selects.now) }
    requires ready { IsReady known.old }
    ensures value { TypesTo result (select_dimensions_of (S.context names.now) selects.now known.old.functions) known.new.functions }
    ensures ready { IsReady known.new }
    ensures keeps { Extends known.old.functions known.new.functions }
{
    let mut dims = Ok(Dims::new(alloc));
    for select in selects {
        dims = next_select(alloc, names, typed, dims, select, known);
    }
    dims
}
