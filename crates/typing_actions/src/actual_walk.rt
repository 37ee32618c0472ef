//! The walk over what is in the form of a target.

ghost use Rattle.std.specs.Prelude.{◌≡◌, map, true, IfOk};
ghost use Rattle.operand_types.specs.Allowed.{AllNarrow, IsNarrow};
ghost use Rattle.routine_fits.specs.Sound.{AllSoundFunctions};
ghost use Rattle.typing_fits.specs.Sound.{Extends};
ghost use Rattle.typing_parts.specs.Typists.{IsReady, MakesKnown};
ghost use Rattle.typing_steps.specs.Steps.{TypesTo};
ghost use Rattle.typing_walks.specs.Keeps.{Surrounded};
ghost use Rattle.typing_walks.specs.Written.{is_written};
ghost use Rattle.typing_operators.specs.Children.{AllWritten};
ghost use Rattle.typing_actions.specs.Actuals as def;

use crate::actual_forms::{TargetForm, target_form};
use crate::actual_names::name_target;
use crate::actual_parts::{joined, part_of};
use expr_type::{Halt, Valued};
use std::alloc::Global;
use sv_tree::Expr;
use sv_types::Exprs;
use typing_calls::{all_made, followed};
use typing_parts::Known;
use typing_paths::Nets;

// The parts of a concatenation, all of which are looked at.
#[cycle(actual)]
fn parts<S: Nets, C: Fn(u32, &mut Known) -> Result<u32, Halt>>(
    alloc: Global,
    names: &S,
    needs: &C,
    items: &[Expr],
    known: &mut Known,
) -> Result<Exprs, Halt>
    requires needs { MakesKnown _ ((n : _) (k : _) → IsReady k.now → C.pre needs.now n k) (λ k. k.now) (C.post needs.now) (S.context names.now) }
    requires names { Surrounded AllSoundFunctions (S.context names.now) }
    requires written { AllWritten items.now }
    requires form { def.are_targets (S.context names.now) items.now ≡ true }
    requires ready { IsReady known.old }
    ensures value { TypesTo result (def.parts_of (S.context names.now) items.now known.old.functions) known.new.functions }
    ensures narrow { IfOk result AllNarrow }
    ensures ready { IsReady known.new }
    ensures keeps { Extends known.old.functions known.new.functions }
{
    let mut made: Result<Vec<sv_types::Expr>, Halt> = Ok(Vec::new(alloc));
    for item in items {
        let next = target(alloc, names, needs, item, known);
        made = followed(made, part_of(next));
    }
    all_made(made)
}

/// What is in the form of a target, as one.
#[cycle(actual)]
pub(crate) fn target<S: Nets, C: Fn(u32, &mut Known) -> Result<u32, Halt>>(
    alloc: Global,
    names: &S,
    needs: &C,
    e: &Expr,
    known: &mut Known,
) -> Result<Valued, Halt>
    requires needs { MakesKnown _ ((n : _) (k : _) → IsReady k.now → C.pre needs.now n k) (λ k. k.now) (C.post needs.now) (S.context names.now) }
    requires names { Surrounded AllSoundFunctions (S.context names.now) }
    requires written { is_written e.now ≡ true }
    requires form { def.is_target (S.context names.now) e.now ≡ true }
    requires ready { IsReady known.old }
    ensures value { TypesTo result (def.target_of (S.context names.now) e.now known.old.functions) known.new.functions }
    ensures narrow { IfOk result IsNarrow }
    ensures ready { IsReady known.new }
    ensures keeps { Extends known.old.functions known.new.functions }
{
    match target_form(e) {
        TargetForm::Name(of, selects) => name_target(alloc, names, needs, of, selects, known),
        TargetForm::Concatenation(opening, items) => {
            let found = parts(alloc, names, needs, items, known);
            joined(alloc, names, opening, found)
        }
        TargetForm::Other => Err(Halt::Quiet),
    }
}
