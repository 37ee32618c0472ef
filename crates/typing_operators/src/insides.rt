//! `inside` and the items on its right.

ghost use Rattle.std.specs.Prelude.{◌≡◌, ◌≤◌, ◌∷◌, [], map, IfOk, OnOk, Ok};
ghost use Rattle.inside_types.specs.Alternatives.{AllNarrowIn, IsNarrowIn, alternative};
ghost use Rattle.operand_types.specs.Allowed.{IsNarrow};
ghost use Rattle.typing_operators.specs.Ranges.{range_of, ranges_of};
ghost use Rattle.typing_fits.specs.Sound.{Extends};
ghost use Rattle.typing_parts.specs.Typists.{AllCanType, CanType, IsReady};
ghost use Rattle.typing_rows.specs.Rows.{Adds, mapped};
ghost use Rattle.typing_steps.specs.Steps.{TypesTo};
ghost use Rattle.typing_values.specs.Children.{in_range, in_ranges};
ghost use Rattle.typing_values.specs.Parts as part;

use expr_type::{Halt, Valued};
use inside_types::{Alternative, Alternatives, inside_of};
use operand_types::Operands;
use pattern_types::Operand;
use std::alloc::Global;
use sv_tree::{Expr, ValueRange};
use typing_parts::{Known, Names};
use typing_rows::{add, all_whole};
use typing_values::{behind_quiet, two, value};

// An item: a value, or a range.
fn alternative<S: Names, F: Fn(&Expr, &mut Known) -> Result<Operand, Halt>>(
    names: &S,
    typed: &F,
    range: &ValueRange,
    known: &mut Known,
) -> Result<Alternative, Halt>
    requires can { AllCanType _ _ (λ e. e.now) (λ k. k.now) (F.pre typed.now) (F.post typed.now) (S.context names.now) (in_range range.now) }
    requires ready { IsReady known.old }
    ensures value { TypesTo (mapped alternative result) (range_of (S.context names.now) range.now known.old.functions) known.new.functions }
    ensures narrow { IfOk result IsNarrowIn }
    ensures ready { IsReady known.new }
    ensures keeps { Extends known.old.functions known.new.functions }
{
    match range {
        ValueRange::Value(e) => {
            let only = value(names, typed, e, known)?;
            Ok(Alternative::Only(only))
        }
        ValueRange::Range { low, high, .. } => {
            let Operands { left, right } = two(names, typed, low, high, known)?;
            Ok(Alternative::Between {
                low: left,
                high: right,
            })
        }
    }
}

// Adds an item that is whole, and answers whether all are so far.
#[tactic(auto, using(crate::proofs::InsidesPutting::narrows))]
fn add_item(
    made: &mut Alternatives,
    whole: bool,
    item: Result<Alternative, Halt>,
) -> Result<bool, Halt>
    requires made { AllNarrowIn made.old }
    requires item { IfOk item IsNarrowIn }
    ensures value { Adds made.old whole item result made.new }
    ensures narrow { OnOk result (AllNarrowIn made.new) }
{
    add(made, whole, item)
}

// The items, in the order of the text.
fn alternatives<S: Names, F: Fn(&Expr, &mut Known) -> Result<Operand, Halt>>(
    alloc: Global,
    names: &S,
    typed: &F,
    ranges: &[ValueRange],
    known: &mut Known,
) -> Result<Alternatives, Halt>
    requires can { AllCanType _ _ (λ e. e.now) (λ k. k.now) (F.pre typed.now) (F.post typed.now) (S.context names.now) (in_ranges ranges.now) }
    requires ready { IsReady known.old }
    ensures value { TypesTo (mapped (map alternative) result) (ranges_of (S.context names.now) ranges.now known.old.functions) known.new.functions }
    ensures narrow { IfOk result AllNarrowIn }
    ensures ready { IsReady known.new }
    ensures keeps { Extends known.old.functions known.new.functions }
{
    let mut made = Alternatives::new(alloc);
    let mut whole = true;
    for range in ranges {
        let item = alternative(names, typed, range, known);
        whole = add_item(&mut made, whole, item)?;
    }
    all_whole(made, whole)
}

/// `inside` at its word: a value, and the values and ranges that it is looked for in.
#[tactic(auto, using(crate::proofs::InsidesPutting::insides))]
pub fn inside<S: Names, F: Fn(&Expr, &mut Known) -> Result<Operand, Halt>>(
    alloc: Global,
    names: &S,
    typed: &F,
    keyword: u32,
    sought: &Expr,
    ranges: &[ValueRange],
    known: &mut Known,
) -> Result<Valued, Halt>
    requires sought { CanType _ _ (λ e. e.now) (λ k. k.now) (F.pre typed.now) (F.post typed.now) (S.context names.now) sought.now }
    requires can { AllCanType _ _ (λ e. e.now) (λ k. k.now) (F.pre typed.now) (F.post typed.now) (S.context names.now) (in_ranges ranges.now) }
    requires ready { IsReady known.old }
    ensures value { TypesTo result (part.inside (S.context names.now) keyword sought.now ranges.now known.old.functions) known.new.functions }
    ensures ready { IsReady known.new }
    ensures keeps { Extends known.old.functions known.new.functions }
{
    match value(names, typed, sought, known) {
        Ok(v) => {
            let items = alternatives(alloc, names, typed, ranges, known)?;
            inside_of(alloc, names.text(), keyword, v, items)
        }
        Err(Halt::Memory) => Err(Halt::Memory),
        Err(Halt::Breaks { at, rule }) => Err(Halt::Breaks { at, rule }),
        Err(Halt::Quiet) => {
            let items = alternatives(alloc, names, typed, ranges, known);
            Err(behind_quiet(items))
        }
    }
}
