//! Targets that are a name with selects behind it.

ghost use Rattle.std.specs.Prelude.{◌≡◌, map, true};
ghost use Rattle.expr_type.specs.Expressions.{meaning};
ghost use Rattle.routine_fits.specs.Sound.{AllSoundFunctions};
ghost use Rattle.typing_fits.specs.Sound.{Extends};
ghost use Rattle.typing_assigns.specs.Parts.{NarrowTarget};
ghost use Rattle.typing_assigns.specs.Targets.{TargetsTo};
ghost use Rattle.typing_parts.specs.Operands.{as_operand};
ghost use Rattle.typing_parts.specs.Typists.{FitsIfOk, IsReady, MakesKnown, NarrowIfOk};
ghost use Rattle.typing_steps.specs.Steps.{TypesTo};
ghost use Rattle.typing_walks.specs.Keeps.{Surrounded};
ghost use Rattle.typing_walks.specs.Written as written;
ghost use Rattle.typing_actions.specs.Walks.{path_of_name};

use expr_type::Halt;
use pattern_types::Operand;
use std::alloc::Global;
use sv_tree::{Expr, QualifiedName, Select};
use typing_assigns::Target;
use typing_exprs::operand;
use typing_parts::Known;
use typing_paths::{Nets, named_target};

/// A name with the selects behind it, as a target of a statement or of a continuous assignment (IEEE 1800-2017 clauses 10.3 and 10.4):
/// with the rules of `typing_paths::named_target`.
#[tactic(auto, using(crate::proofs::Named::paths))]
pub fn name_target<S: Nets, C: Fn(u32, &mut Known) -> Result<u32, Halt>>(
    alloc: Global,
    names: &S,
    needs: &C,
    in_statement: bool,
    name: u32,
    selects: &[Select],
    known: &mut Known,
) -> Result<Target, Halt>
    requires needs { MakesKnown _ ((n : _) (k : _) → IsReady k.now → C.pre needs.now n k) (λ k. k.now) (C.post needs.now) (S.context names.now) }
    requires names { Surrounded AllSoundFunctions (S.context names.now) }
    requires written { written.all (map written.select_written selects.now) ≡ true }
    requires ready { IsReady known.old }
    ensures value { TargetsTo result (path_of_name (S.context names.now) in_statement name selects.now known.old.functions) known.new.functions }
    ensures narrow { NarrowTarget result }
    ensures ready { IsReady known.new }
    ensures keeps { Extends known.old.functions known.new.functions }
{
    let typed = |e: &Expr, k: &mut Known| -> Result<Operand, Halt>
        requires needs { MakesKnown _ ((n : _) (k : _) → IsReady k.now → C.pre needs.now n k) (λ k. k.now) (C.post needs.now) (S.context names.now) }
        requires names { Surrounded AllSoundFunctions (S.context names.now) }
        requires written { written.is_written e.now ≡ true }
        requires ready { IsReady k.old }
        ensures value { TypesTo (as_operand (S.context names.entry.now).source result) ((meaning e.now).typed (S.context names.entry.now) k.old.functions) k.new.functions }
        ensures narrow { NarrowIfOk result }
        ensures fits { FitsIfOk result k.new.functions }
        ensures ready { IsReady k.new }
        ensures keeps { Extends k.old.functions k.new.functions }
    { operand(alloc, names, needs, e, k) };
    let of = QualifiedName { scope: None, name };
    let v = named_target(alloc, names, &typed, in_statement, of, selects, known)?;
    Ok(Target::Path(v))
}
