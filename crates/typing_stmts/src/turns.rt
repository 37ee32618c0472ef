//! The heads of loops.

ghost use Rattle.std.specs.Prelude.{◌≡◌, true, IfOk, IfSome};
ghost use Rattle.std.specs.Option.{option_copied, option_map};
ghost use Rattle.expr_type.specs.Statements as statement;
ghost use Rattle.frame_things.specs.Finding.{local_id};
ghost use Rattle.routine_fits.specs.Sound.{AllSoundFunctions};
ghost use Rattle.stmt_laws.specs.Written.{step_written};
ghost use Rattle.typing_calls.specs.Lists.{as_meant};
ghost use Rattle.typing_fits.specs.Sound.{Extends, IsNarrowType};
ghost use Rattle.typing_declarations.specs.Loops.{control_of, variable_of};
ghost use Rattle.typing_parts.specs.Typists.{IsReady, MakesKnown};
ghost use Rattle.typing_scopes.specs.Scopes.{context_of};
ghost use Rattle.typing_sides.specs.Sides.{known_of};
ghost use Rattle.typing_steps.specs.Steps.{TypesTo};
ghost use Rattle.typing_stmts.specs.Controls.{controlled};
ghost use Rattle.typing_walks.specs.Keeps.{Surrounded};
ghost use Rattle.typing_walks.specs.Written.{is_written};

use expr_type::Halt;
use frame_things::NamedLocal;
use std::alloc::Global;
use sv_tree::{Expr, LoopStep};
use typing_actions::{condition, loop_step};
use typing_declarations::{Control, LoopVariable};
use typing_parts::Known;
use typing_scopes::{Base, Scope};
use typing_sides::beside;

// The variable of a loop, where it is whole.
#[tactic(auto, using(crate::proofs::Controls::variables))]
fn whole_variable(variable: &Result<LoopVariable, Halt>) -> Option<&NamedLocal>
    requires narrow { IfOk variable.now (λ v. IsNarrowType v.local.of) }
    ensures value { option_map local_id (option_copied result) ≡ statement.id_of (known_of (as_meant variable_of variable.now)) }
    ensures narrow { IfSome (option_copied result) (λ l. IsNarrowType l.of) }
{
    match variable {
        Ok(variable) => Some(&variable.local),
        Err(_) => None,
    }
}

/// The test and the step of a loop of this variable, where it stands (IEEE 1800-2017 clause 12.7.1). The first break in the order of
/// the text counts.
pub(crate) fn test_and_step<B: Base, C: Fn(u32, &mut Known) -> Result<u32, Halt>>(
    alloc: Global,
    names: &Scope<'_, B>,
    needs: &C,
    variable: &Result<LoopVariable, Halt>,
    test: &Expr,
    step: &LoopStep,
    known: &mut Known,
) -> Result<Control, Halt>
    requires needs { MakesKnown _ ((n : _) (k : _) → IsReady k.now → C.pre needs.now n k) (λ k. k.now) (C.post needs.now) (context_of B.context names.now) }
    requires names { Surrounded AllSoundFunctions (context_of B.context names.now) }
    requires narrow { IfOk variable.now (λ v. IsNarrowType v.local.of) }
    requires test { is_written test.now ≡ true }
    requires step { step_written step.now ≡ true }
    requires ready { IsReady known.old }
    ensures value { TypesTo (as_meant control_of result) (controlled (context_of B.context names.now) (known_of (as_meant variable_of variable.now)) test.now step.now known.old.functions) known.new.functions }
    ensures ready { IsReady known.new }
    ensures keeps { Extends known.old.functions known.new.functions }
{
    let local = whole_variable(variable);
    let test = condition(alloc, names, needs, test, known);
    let step = loop_step(alloc, names, needs, local, step, known);
    let (test, step) = beside(test, step)?;
    Ok(Control { test, step })
}
