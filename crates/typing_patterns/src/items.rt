//! Items of patterns.

ghost use Rattle.std.specs.Prelude.{◌≡◌, map, flat_map, IfOk};
ghost use Rattle.expr_type.specs.Patterns as rule;
ghost use Rattle.typing_fits.specs.Operands.{SoundContext};
ghost use Rattle.typing_fits.specs.Sound.{Extends};
ghost use Rattle.typing_parts.specs.Typists.{AllCanType, CanType, IsReady};
ghost use Rattle.typing_patterns.specs.Written.{AllFoundIn, AllInPlace, IsFoundIn, IsInPlace, as_item, as_value, item_by, items_by, keyed_by, numbered_by, valued_by, values_by};
ghost use Rattle.typing_rows.specs.Rows.{mapped};
ghost use Rattle.typing_steps.specs.Steps.{TypesTo};
ghost use Rattle.typing_values.specs.Children.{in_item};
ghost use Rattle.typing_values.specs.Values.{unstreamed_of};

use crate::keys::{key_number, name_alone, name_key};
use expr_type::Halt;
use pattern_types::{Item, ItemKey, Items, Operand};
use std::alloc::Global;
use sv_tree::{Expr, PatternItem, QualifiedName};
use typing_parts::{Known, Names};
use typing_rows::{add, all_whole};
use typing_values::{behind_quiet, unstreamed};

// A value behind `default`.
#[tactic(auto, using(crate::proofs::Putting::steps))]
fn default_item<S: Names, F: Fn(&Expr, &mut Known) -> Result<Operand, Halt>>(
    names: &S,
    typed: &F,
    value: &Expr,
    known: &mut Known,
) -> Result<Item, Halt>
    requires can { CanType _ _ (λ e. e.now) (λ k. k.now) (F.pre typed.now) (F.post typed.now) (S.context names.now) value.now }
    requires ready { IsReady known.old }
    ensures value { TypesTo (mapped (as_item (S.context names.now).source) result) (valued_by (S.context names.now) rule.ByDefault value.now known.old.functions) known.new.functions }
    ensures found { IfOk result (IsFoundIn (S.context names.now)) }
    ensures ready { IsReady known.new }
    ensures keeps { Extends known.old.functions known.new.functions }
{
    let value = unstreamed(names, typed, value, known)?;
    Ok(Item {
        key: ItemKey::ByDefault,
        value,
    })
}

// A value in its place.
#[tactic(auto, using(crate::proofs::Putting::steps))]
fn placed_item<S: Names, F: Fn(&Expr, &mut Known) -> Result<Operand, Halt>>(
    names: &S,
    typed: &F,
    value: &Expr,
    known: &mut Known,
) -> Result<Item, Halt>
    requires can { CanType _ _ (λ e. e.now) (λ k. k.now) (F.pre typed.now) (F.post typed.now) (S.context names.now) value.now }
    requires ready { IsReady known.old }
    ensures value { TypesTo (mapped (as_item (S.context names.now).source) result) (valued_by (S.context names.now) rule.InPlace value.now known.old.functions) known.new.functions }
    ensures operand { TypesTo (mapped (as_value (S.context names.now).source) result) (unstreamed_of (S.context names.now) value.now known.old.functions) known.new.functions }
    ensures placed { IfOk result IsInPlace }
    ensures ready { IsReady known.new }
    ensures keeps { Extends known.old.functions known.new.functions }
{
    let value = unstreamed(names, typed, value, known)?;
    Ok(Item {
        key: ItemKey::InPlace,
        value,
    })
}

// A value behind a name.
#[tactic(auto, using(crate::proofs::Putting::steps))]
fn named_item<S: Names, F: Fn(&Expr, &mut Known) -> Result<Operand, Halt>>(
    alloc: Global,
    names: &S,
    typed: &F,
    of: QualifiedName,
    value: &Expr,
    known: &mut Known,
) -> Result<Item, Halt>
    requires names { SoundContext (S.context names.now) }
    requires can { CanType _ _ (λ e. e.now) (λ k. k.now) (F.pre typed.now) (F.post typed.now) (S.context names.now) value.now }
    requires ready { IsReady known.old }
    ensures value { TypesTo (mapped (as_item (S.context names.now).source) result) (valued_by (S.context names.now) (rule.Named of) value.now known.old.functions) known.new.functions }
    ensures found { IfOk result (IsFoundIn (S.context names.now)) }
    ensures ready { IsReady known.new }
    ensures keeps { Extends known.old.functions known.new.functions }
{
    let value = unstreamed(names, typed, value, known)?;
    let otherwise = name_key(alloc, names, of, known)?;
    Ok(Item {
        key: ItemKey::Named { of, otherwise },
        value,
    })
}

// A value behind a constant index.
#[tactic(auto, using(crate::proofs::Putting::both))]
fn numbered_item<S: Names, F: Fn(&Expr, &mut Known) -> Result<Operand, Halt>>(
    alloc: Global,
    names: &S,
    typed: &F,
    key: &Expr,
    value: &Expr,
    known: &mut Known,
) -> Result<Item, Halt>
    requires key { CanType _ _ (λ e. e.now) (λ k. k.now) (F.pre typed.now) (F.post typed.now) (S.context names.now) key.now }
    requires can { CanType _ _ (λ e. e.now) (λ k. k.now) (F.pre typed.now) (F.post typed.now) (S.context names.now) value.now }
    requires ready { IsReady known.old }
    ensures value { TypesTo (mapped (as_item (S.context names.now).source) result) (numbered_by (S.context names.now) key.now value.now known.old.functions) known.new.functions }
    ensures found { IfOk result (IsFoundIn (S.context names.now)) }
    ensures ready { IsReady known.new }
    ensures keeps { Extends known.old.functions known.new.functions }
{
    match key_number(alloc, names, typed, key, known) {
        Ok(n) => {
            let value = unstreamed(names, typed, value, known)?;
            Ok(Item {
                key: ItemKey::Numbered(n),
                value,
            })
        }
        Err(Halt::Memory) => Err(Halt::Memory),
        Err(Halt::Breaks { at, rule }) => Err(Halt::Breaks { at, rule }),
        Err(Halt::Quiet) => {
            let value = unstreamed(names, typed, value, known);
            Err(behind_quiet(value))
        }
    }
}

// A value behind a key: a name, or a constant index.
#[tactic(auto, using(crate::proofs::Putting::keyed))]
fn keyed_item<S: Names, F: Fn(&Expr, &mut Known) -> Result<Operand, Halt>>(
    alloc: Global,
    names: &S,
    typed: &F,
    key: &Expr,
    value: &Expr,
    known: &mut Known,
) -> Result<Item, Halt>
    requires names { SoundContext (S.context names.now) }
    requires key { CanType _ _ (λ e. e.now) (λ k. k.now) (F.pre typed.now) (F.post typed.now) (S.context names.now) key.now }
    requires can { CanType _ _ (λ e. e.now) (λ k. k.now) (F.pre typed.now) (F.post typed.now) (S.context names.now) value.now }
    requires ready { IsReady known.old }
    ensures value { TypesTo (mapped (as_item (S.context names.now).source) result) (keyed_by (S.context names.now) key.now value.now known.old.functions) known.new.functions }
    ensures found { IfOk result (IsFoundIn (S.context names.now)) }
    ensures ready { IsReady known.new }
    ensures keeps { Extends known.old.functions known.new.functions }
{
    match name_alone(key) {
        Some(of) => named_item(alloc, names, typed, of, value, known),
        None => numbered_item(alloc, names, typed, key, value, known),
    }
}

// An item.
#[tactic(auto, using(crate::proofs::Putting::levels))]
fn item<S: Names, F: Fn(&Expr, &mut Known) -> Result<Operand, Halt>>(
    alloc: Global,
    names: &S,
    typed: &F,
    of: &PatternItem,
    known: &mut Known,
) -> Result<Item, Halt>
    requires names { SoundContext (S.context names.now) }
    requires can { AllCanType _ _ (λ e. e.now) (λ k. k.now) (F.pre typed.now) (F.post typed.now) (S.context names.now) (in_item of.now) }
    requires ready { IsReady known.old }
    ensures value { TypesTo (mapped (as_item (S.context names.now).source) result) (item_by (S.context names.now) of.now known.old.functions) known.new.functions }
    ensures found { IfOk result (IsFoundIn (S.context names.now)) }
    ensures ready { IsReady known.new }
    ensures keeps { Extends known.old.functions known.new.functions }
{
    match of {
        PatternItem::Default { value, .. } => default_item(names, typed, value, known),
        PatternItem::Keyed { key, value, .. } => {
            keyed_item(alloc, names, typed, key, value, known)
        }
        PatternItem::Value(value) => placed_item(names, typed, value, known),
    }
}

/// Items as they are written, in the order of the text.
pub fn written<S: Names, F: Fn(&Expr, &mut Known) -> Result<Operand, Halt>>(
    alloc: Global,
    names: &S,
    typed: &F,
    of: &[PatternItem],
    known: &mut Known,
) -> Result<Items, Halt>
    requires names { SoundContext (S.context names.now) }
    requires can { AllCanType _ _ (λ e. e.now) (λ k. k.now) (F.pre typed.now) (F.post typed.now) (S.context names.now) (flat_map in_item of.now) }
    requires ready { IsReady known.old }
    ensures value { TypesTo (mapped (map (as_item (S.context names.now).source)) result) (items_by (S.context names.now) of.now known.old.functions) known.new.functions }
    ensures found { IfOk result (AllFoundIn (S.context names.now)) }
    ensures ready { IsReady known.new }
    ensures keeps { Extends known.old.functions known.new.functions }
{
    let mut made = Items::new(alloc);
    let mut whole = true;
    for i in of {
        let one = item(alloc, names, typed, i, known);
        whole = add(&mut made, whole, one)?;
    }
    all_whole(made, whole)
}

/// Values that are repeated, each in its place, in the order of the text.
pub fn repeated<S: Names, F: Fn(&Expr, &mut Known) -> Result<Operand, Halt>>(
    alloc: Global,
    names: &S,
    typed: &F,
    es: &[Expr],
    known: &mut Known,
) -> Result<Items, Halt>
    requires can { AllCanType _ _ (λ e. e.now) (λ k. k.now) (F.pre typed.now) (F.post typed.now) (S.context names.now) es.now }
    requires ready { IsReady known.old }
    ensures value { TypesTo (mapped (map (as_value (S.context names.now).source)) result) (values_by (S.context names.now) es.now known.old.functions) known.new.functions }
    ensures placed { IfOk result AllInPlace }
    ensures ready { IsReady known.new }
    ensures keeps { Extends known.old.functions known.new.functions }
{
    let mut made = Items::new(alloc);
    let mut whole = true;
    for e in es {
        let one = placed_item(names, typed, e, known);
        whole = add(&mut made, whole, one)?;
    }
    all_whole(made, whole)
}
