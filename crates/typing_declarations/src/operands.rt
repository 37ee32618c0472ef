//! Expressions in declarations, and types in the place of expressions.

ghost use Rattle.std.specs.Prelude.{◌≡◌, map, true};
ghost use Rattle.expr_type.specs.Expressions.{meaning};
ghost use Rattle.routine_fits.specs.Sound.{AllSoundFunctions};
ghost use Rattle.typing_fits.specs.Sound.{Extends};
ghost use Rattle.typing_parts.specs.Operands.{as_operand};
ghost use Rattle.typing_parts.specs.Typists.{FitsIfOk, IsReady, MakesKnown, NarrowIfOk};
ghost use Rattle.typing_steps.specs.Steps.{StopsBy, TypesTo};
ghost use Rattle.typing_walks.specs.Keeps.{Surrounded};
ghost use Rattle.typing_paths.specs.System.{as_type_of};
ghost use Rattle.typing_values.specs.Parts as part;
ghost use Rattle.typing_walks.specs.Written as written;
ghost use Rattle.typing_walks.specs.Written.{is_written};
ghost use Rattle.typing_walks.specs.WrittenTypes.{initial_written};
ghost use Rattle.typing_declarations.specs.Declaring.{looked_alone, looked_by};

use crate::operand;
use expr_type::Halt;
use pattern_types::Operand;
use std::alloc::Global;
use sv_tree::{Expr, Initializer, Select};
use sv_types::SvType;
use typing_parts::{Known, Names};
use typing_paths::{as_type, dimensioned};

// What an operand that is looked at by itself stops.
fn halt_of(o: Result<Operand, Halt>) -> Halt
    ensures { result ≡ looked_by o }
{
    match o {
        Ok(o) => {
            drop(o);
            Halt::Quiet
        }
        Err(halt) => halt,
    }
}

/// Why nothing is made of a value whose type isn't whole: the first break of the value by itself, if it has one.
#[tactic(auto, using(typing_parts::proofs::Keeping::keepings))]
pub(crate) fn looked_at<S: Names, C: Fn(u32, &mut Known) -> Result<u32, Halt>>(
    alloc: Global,
    names: &S,
    needs: &C,
    initial: &Option<Initializer>,
    known: &mut Known,
) -> Halt
    requires needs { MakesKnown _ ((n : _) (k : _) → IsReady k.now → C.pre needs.now n k) (λ k. k.now) (C.post needs.now) (S.context names.now) }
    requires names { Surrounded AllSoundFunctions (S.context names.now) }
    requires written { initial_written initial.now ≡ true }
    requires ready { IsReady known.old }
    ensures value { StopsBy result (looked_alone (S.context names.now) initial.now known.old.functions) known.new.functions }
    ensures ready { IsReady known.new }
    ensures keeps { Extends known.old.functions known.new.functions }
{
    match initial {
        None => Halt::Quiet,
        Some(i) => halt_of(operand(alloc, names, needs, &i.value, known)),
    }
}

/// An expression as a type, if it is one (IEEE 1800-2017 clause 6.20.3).
pub(crate) fn written_type<S: Names, C: Fn(u32, &mut Known) -> Result<u32, Halt>>(
    alloc: Global,
    names: &S,
    needs: &C,
    e: &Expr,
    known: &mut Known,
) -> Result<Option<SvType>, Halt>
    requires needs { MakesKnown _ ((n : _) (k : _) → IsReady k.now → C.pre needs.now n k) (λ k. k.now) (C.post needs.now) (S.context names.now) }
    requires names { Surrounded AllSoundFunctions (S.context names.now) }
    requires written { is_written e.now ≡ true }
    requires ready { IsReady known.old }
    ensures value { TypesTo result (as_type_of (S.context names.now) e.now known.old.functions) known.new.functions }
    ensures ready { IsReady known.new }
    ensures keeps { Extends known.old.functions known.new.functions }
{
    let typed = |child: &Expr, k: &mut Known| -> Result<Operand, Halt>
        requires needs { MakesKnown _ ((n : _) (k : _) → IsReady k.now → C.pre needs.now n k) (λ k. k.now) (C.post needs.now) (S.context names.now) }
        requires names { Surrounded AllSoundFunctions (S.context names.now) }
        requires written { is_written child.now ≡ true }
        requires ready { IsReady k.old }
        ensures value { TypesTo (as_operand (S.context names.entry.now).source result) ((meaning child.now).typed (S.context names.entry.now) k.old.functions) k.new.functions }
        ensures narrow { NarrowIfOk result }
        ensures fits { FitsIfOk result k.new.functions }
        ensures ready { IsReady k.new }
        ensures keeps { Extends k.old.functions k.new.functions }
    { operand(alloc, names, needs, child, k) };
    as_type(alloc, names, &typed, e, known)
}

/// A type with the dimensions that selects behind its name are.
pub(crate) fn with_selects<S: Names, C: Fn(u32, &mut Known) -> Result<u32, Halt>>(
    alloc: Global,
    names: &S,
    needs: &C,
    t: &SvType,
    selects: &[Select],
    known: &mut Known,
) -> Result<SvType, Halt>
    requires needs { MakesKnown _ ((n : _) (k : _) → IsReady k.now → C.pre needs.now n k) (λ k. k.now) (C.post needs.now) (S.context names.now) }
    requires names { Surrounded AllSoundFunctions (S.context names.now) }
    requires written { written.all (map written.select_written selects.now) ≡ true }
    requires ready { IsReady known.old }
    ensures value { TypesTo result (part.dimensioned (S.context names.now) t.now selects.now known.old.functions) known.new.functions }
    ensures ready { IsReady known.new }
    ensures keeps { Extends known.old.functions known.new.functions }
{
    let typed = |child: &Expr, k: &mut Known| -> Result<Operand, Halt>
        requires needs { MakesKnown _ ((n : _) (k : _) → IsReady k.now → C.pre needs.now n k) (λ k. k.now) (C.post needs.now) (S.context names.now) }
        requires names { Surrounded AllSoundFunctions (S.context names.now) }
        requires written { is_written child.now ≡ true }
        requires ready { IsReady k.old }
        ensures value { TypesTo (as_operand (S.context names.entry.now).source result) ((meaning child.now).typed (S.context names.entry.now) k.old.functions) k.new.functions }
        ensures narrow { NarrowIfOk result }
        ensures fits { FitsIfOk result k.new.functions }
        ensures ready { IsReady k.new }
        ensures keeps { Extends k.old.functions k.new.functions }
    { operand(alloc, names, needs, child, k) };
    dimensioned(alloc, names, &typed, t, selects, known)
}
