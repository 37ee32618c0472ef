//! Dimensions of a text.

ghost use Rattle.std.specs.Prelude.{◌≡◌, true};
ghost use Rattle.expr_type.specs.Expressions.{meaning};
ghost use Rattle.expr_type.specs.Types as means;
ghost use Rattle.routine_fits.specs.Sound.{AllSoundFunctions};
ghost use Rattle.typing_fits.specs.Sound.{Extends};
ghost use Rattle.typing_walks.specs.Keeps.{Surrounded};
ghost use Rattle.typing_walks.specs.Written.{is_written};
ghost use Rattle.typing_walks.specs.WrittenTypes.{dims_written};
ghost use Rattle.typing_parts.specs.Operands.{as_operand};
ghost use Rattle.typing_parts.specs.Typists.{FitsIfOk, IsReady, MakesKnown, NarrowIfOk};
ghost use Rattle.typing_steps.specs.Steps.{TypesTo};

use expr_type::Halt;
use pattern_types::Operand;
use std::alloc::Global;
use sv_tree::{Dimension, Expr};
use typing_exprs::operand;
use typing_parts::{Known, Names};
use typing_paths::{Dims, dimensions};

/// Dimensions as they are written, the outermost one first (IEEE 1800-2017 clause 7.4). Their first break in the order of the text counts.
pub fn dims<S: Names, C: Fn(u32, &mut Known) -> Result<u32, Halt>>(
    alloc: Global,
    names: &S,
    needs: &C,
    ds: &[Dimension],
    known: &mut Known,
) -> Result<Dims, Halt>
    requires needs { MakesKnown _ ((n : _) (k : _) → IsReady k.now → C.pre needs.now n k) (λ k. k.now) (C.post needs.now) (S.context names.now) }
    requires names { Surrounded AllSoundFunctions (S.context names.now) }
    requires written { dims_written ds.now ≡ true }
    requires ready { IsReady known.old }
    ensures value { TypesTo result (means.dims (S.context names.now) ds.now known.old.functions) known.new.functions }
    ensures ready { IsReady known.new }
    ensures keeps { Extends known.old.functions known.new.functions }
{
    let typed = |child: &Expr, k: &mut Known| -> Result<Operand, Halt>
        requires needs { MakesKnown _ ((n : _) (k : _) → IsReady k.now → C.pre needs.now n k) (λ k. k.now) (C.post needs.now) (S.context names.now) }
        requires names { Surrounded AllSoundFunctions (S.context names.now) }
        requires written { is_written child.now ≡ true }
        requires ready { IsReady k.old }
        ensures value { TypesTo (as_operand (S.context names.entry.now).source result) ((meaning child.now).typed (S.context names.entry.now) k.old.functions) k.new.functions }
        ensures narrow { NarrowIfOk result }
        ensures fits { FitsIfOk result k.new.functions }
        ensures ready { IsReady k.new }
        ensures keeps { Extends k.old.functions k.new.functions }
    { operand(alloc, names, needs, child, k) };
    dimensions(alloc, names, &typed, ds, known)
}
