//! How many bits the slices of a target stream have.

ghost use Rattle.std.specs.Prelude.{◌≡◌, ◌<◌, true, Some, IfOk};
ghost use Rattle.std.specs.Option.{option_map};
ghost use Rattle.expr_type.specs.Expressions.{meaning, slice_meaning};
ghost use Rattle.expr_type.specs.Targets as def;
ghost use Rattle.routine_fits.specs.Sound.{AllSoundFunctions};
ghost use Rattle.typing_fits.specs.Sound.{Extends};
ghost use Rattle.typing_parts.specs.Operands.{as_operand};
ghost use Rattle.typing_parts.specs.Typists.{FitsIfOk, IsReady, MakesKnown, NarrowIfOk};
ghost use Rattle.typing_steps.specs.Steps.{TypesTo};
ghost use Rattle.typing_walks.specs.Keeps.{Surrounded};
ghost use Rattle.typing_walks.specs.Written as written;

use expr_type::Halt;
use pattern_types::Operand;
use std::alloc::Global;
use sv_tree::{Expr, SliceSize};
use typing_exprs::{operand, written_size};
use typing_parts::{Known, Names};

// The bits of a slice as it is written.
#[tactic(auto, using(crate::proofs::Slices::sizes))]
fn sized<S: Names, C: Fn(u32, &mut Known) -> Result<u32, Halt>>(
    alloc: Global,
    names: &S,
    needs: &C,
    size: &SliceSize,
    known: &mut Known,
) -> Result<u32, Halt>
    requires needs { MakesKnown _ ((n : _) (k : _) → IsReady k.now → C.pre needs.now n k) (λ k. k.now) (C.post needs.now) (S.context names.now) }
    requires names { Surrounded AllSoundFunctions (S.context names.now) }
    requires written { written.slice_written size.now ≡ true }
    requires ready { IsReady known.old }
    ensures value { TypesTo result (slice_meaning size.now (S.context names.now) known.old.functions) known.new.functions }
    ensures some { IfOk result (λ n. 0 < n) }
    ensures ready { IsReady known.new }
    ensures keeps { Extends known.old.functions known.new.functions }
{
    let typed = |e: &Expr, k: &mut Known| -> Result<Operand, Halt>
        requires needs { MakesKnown _ ((n : _) (k : _) → IsReady k.now → C.pre needs.now n k) (λ k. k.now) (C.post needs.now) (S.context names.now) }
        requires names { Surrounded AllSoundFunctions (S.context names.now) }
        requires written { written.is_written e.now ≡ true }
        requires ready { IsReady k.old }
        ensures value { TypesTo (as_operand (S.context names.entry.now).source result) ((meaning e.now).typed (S.context names.entry.now) k.old.functions) k.new.functions }
        ensures narrow { NarrowIfOk result }
        ensures fits { FitsIfOk result k.new.functions }
        ensures ready { IsReady k.new }
        ensures keeps { Extends k.old.functions k.new.functions }
    { operand(alloc, names, needs, e, k) };
    written_size(alloc, names, &typed, size, known)
}

/// How many bits a slice of a target stream has, from 1 to 65,536 (E411): one where nothing is written.
pub(crate) fn slice_size<S: Names, C: Fn(u32, &mut Known) -> Result<u32, Halt>>(
    alloc: Global,
    names: &S,
    needs: &C,
    size: &Option<SliceSize>,
    known: &mut Known,
) -> Result<u32, Halt>
    requires needs { MakesKnown _ ((n : _) (k : _) → IsReady k.now → C.pre needs.now n k) (λ k. k.now) (C.post needs.now) (S.context names.now) }
    requires names { Surrounded AllSoundFunctions (S.context names.now) }
    requires written { written.if_there (option_map written.slice_written size.now) ≡ true }
    requires ready { IsReady known.old }
    ensures value { TypesTo result (def.slice_or_one (S.context names.now) size.now known.old.functions) known.new.functions }
    ensures some { IfOk result (λ n. 0 < n) }
    ensures ready { IsReady known.new }
    ensures keeps { Extends known.old.functions known.new.functions }
{
    match size {
        None => Ok(1),
        Some(size) => sized(alloc, names, needs, size, known),
    }
}
