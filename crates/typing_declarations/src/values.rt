//! Values of the names of enums as they are written.

ghost use Rattle.std.specs.Prelude.{◌≡◌, ◌≤◌, ◌<◌, length, true, IfOk};
ghost use Rattle.std.specs.Option.{option_copied};
ghost use Rattle.b4_core.specs.Vectors.{known};
ghost use Rattle.sv_types.specs.Layouts.{width_of};
ghost use Rattle.sv_types.specs.Values.{value_of_bits};
ghost use Rattle.expr_type.specs.Expressions.{meaning};
ghost use Rattle.routine_fits.specs.Sound.{AllSoundFunctions};
ghost use Rattle.typing_fits.specs.Sound.{Extends};
ghost use Rattle.typing_walks.specs.Keeps.{Surrounded};
ghost use Rattle.typing_walks.specs.Written.{is_written};
ghost use Rattle.typing_walks.specs.WrittenTypes.{initial_written};
ghost use Rattle.typing_parts.specs.Operands.{as_operand};
ghost use Rattle.typing_parts.specs.Typists.{FitsIfOk, IsReady, MakesKnown, NarrowIfOk};
ghost use Rattle.typing_steps.specs.Steps.{TypesTo};
ghost use Rattle.typing_values.specs.Numbers.{CanBeValued, constant_of};
ghost use Rattle.enum_values.specs.Values.{AreInBase, IsInBase};
ghost use Rattle.typing_declarations.specs.Naming.{IsMet, as_named, last_bits, name_of, written_name};

use crate::enum_names::Met;
use b4_core::Vec4;
use enum_values::{unwritten_value, written_value};
use expr_type::{Halt, Valued};
use pattern_types::Operand;
use std::alloc::Global;
use sv_tree::{EnumName, Expr};
use sv_types::SvType;
use typing_exprs::operand;
use typing_parts::{Known, Names};

// An expression where a constant is wanted.
fn constant<S: Names, C: Fn(u32, &mut Known) -> Result<u32, Halt>>(
    alloc: Global,
    names: &S,
    needs: &C,
    e: &Expr,
    known: &mut Known,
) -> Result<Valued, Halt>
    requires needs { MakesKnown _ ((n : _) (k : _) → IsReady k.now → C.pre needs.now n k) (λ k. k.now) (C.post needs.now) (S.context names.now) }
    requires names { Surrounded AllSoundFunctions (S.context names.now) }
    requires written { is_written e.now ≡ true }
    requires ready { IsReady known.old }
    ensures value { TypesTo result (constant_of (S.context names.now) e.now known.old.functions) known.new.functions }
    ensures fits { IfOk result (CanBeValued known.new.functions) }
    ensures ready { IsReady known.new }
    ensures keeps { Extends known.old.functions known.new.functions }
{
    let typed = |child: &Expr, k: &mut Known| -> Result<Operand, Halt>
        requires needs { MakesKnown _ ((n : _) (k : _) → IsReady k.now → C.pre needs.now n k) (λ k. k.now) (C.post needs.now) (S.context names.now) }
        requires names { Surrounded AllSoundFunctions (S.context names.now) }
        requires written { is_written child.now ≡ true }
        requires ready { IsReady k.old }
        ensures value { TypesTo (as_operand (S.context names.entry.now).source result) ((meaning child.now).typed (S.context names.entry.now) k.old.functions) k.new.functions }
        ensures narrow { NarrowIfOk result }
        ensures fits { FitsIfOk result k.new.functions }
        ensures ready { IsReady k.new }
        ensures keeps { Extends k.old.functions k.new.functions }
    { operand(alloc, names, needs, child, k) };
    typing_values::constant(alloc, names, &typed, e, known)
}

// The bits of a value that is written.
#[tactic(auto, using(crate::proofs::Valuing::valuing))]
fn written<S: Names, C: Fn(u32, &mut Known) -> Result<u32, Halt>>(
    alloc: Global,
    names: &S,
    needs: &C,
    base: &SvType,
    met: &Met,
    at: u32,
    e: &Expr,
    known: &mut Known,
) -> Result<Vec4, Halt>
    requires needs { MakesKnown _ ((n : _) (k : _) → IsReady k.now → C.pre needs.now n k) (λ k. k.now) (C.post needs.now) (S.context names.now) }
    requires names { Surrounded AllSoundFunctions (S.context names.now) }
    requires whole { 0 < width_of base.now }
    requires met { IsMet base.now met.now }
    requires written { is_written e.now ≡ true }
    requires ready { IsReady known.old }
    ensures value { TypesTo (as_named base.now at result) (written_name (S.context names.now) base.now met.now at e.now known.old.functions) known.new.functions }
    ensures bits { IfOk result (IsInBase base.now) }
    ensures short { IfOk result (λ bits. width_of base.now ≤ 65536) }
    ensures ready { IsReady known.new }
    ensures keeps { Extends known.old.functions known.new.functions }
{
    let v = constant(alloc, names, needs, e, known)?;
    written_value(
        alloc,
        names.text(),
        at,
        base,
        &met.taken,
        &v,
        &known.functions,
        known.marks.as_slice(),
    )
}

// The bits of the value of the last name, if it has one.
fn last_bits(met: &Met) -> Option<&Vec4>
    ensures { option_copied result ≡ last_bits met.now }
{
    if met.lost {
        return None;
    }
    match met.names.get(met.names.len().saturating_sub(1)) {
        None => None,
        Some(named) => Some(&named.bits),
    }
}

/// The bits in the base of a name's value. One that isn't written behind a name that has no value has none.
#[tactic(auto, using(crate::proofs::Valuing::naming))]
pub(crate) fn name_value<S: Names, C: Fn(u32, &mut Known) -> Result<u32, Halt>>(
    alloc: Global,
    names: &S,
    needs: &C,
    base: &SvType,
    met: &Met,
    name: &EnumName,
    known: &mut Known,
) -> Result<Vec4, Halt>
    requires needs { MakesKnown _ ((n : _) (k : _) → IsReady k.now → C.pre needs.now n k) (λ k. k.now) (C.post needs.now) (S.context names.now) }
    requires names { Surrounded AllSoundFunctions (S.context names.now) }
    requires whole { 0 < width_of base.now }
    requires met { IsMet base.now met.now }
    requires written { initial_written name.now.value ≡ true }
    requires ready { IsReady known.old }
    ensures value { TypesTo (as_named base.now name.now.name result) (name_of (S.context names.now) base.now met.now name.now known.old.functions) known.new.functions }
    ensures bits { IfOk result (IsInBase base.now) }
    ensures short { IfOk result (λ bits. width_of base.now ≤ 65536) }
    ensures ready { IsReady known.new }
    ensures keeps { Extends known.old.functions known.new.functions }
{
    match &name.value {
        None => {
            if met.lost {
                return Err(Halt::Quiet);
            }
            unwritten_value(alloc, name.name, base, &met.taken, last_bits(met))
        }
        Some(initial) => {
            let e = &initial.value;
            written(alloc, names, needs, base, met, name.name, e, known)
        }
    }
}
