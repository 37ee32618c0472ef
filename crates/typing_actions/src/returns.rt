//! `return`.

ghost use Rattle.std.specs.Prelude.{◌≡◌, true, IfOk};
ghost use Rattle.std.specs.Option.{option_copied};
ghost use Rattle.expr_type.specs.Answers.{Gives};
ghost use Rattle.expr_type.specs.Statements as statement;
ghost use Rattle.pattern_types.specs.Meaning.{operand_of};
ghost use Rattle.routine_fits.specs.Sound.{AllSoundFunctions};
ghost use Rattle.typing_fits.specs.Sound.{Extends};
ghost use Rattle.typing_parts.specs.Typists.{IsNarrowOperand, IsReady, MakesKnown};
ghost use Rattle.typing_steps.specs.Steps.{TypesTo};
ghost use Rattle.typing_walks.specs.Keeps.{Surrounded};
ghost use Rattle.typing_actions.specs.ControlsWritten.{written_if};

use expr_type::Halt;
use pattern_types::Operand;
use std::alloc::Global;
use stmt_forms::return_value;
use sv_tree::Expr;
use sv_types::{Stmt, SvType};
use typing_exprs::operand;
use typing_parts::{Known, Names};

// A `return` at its word of what is typed, in a function with a result of a type.
fn given_back<S: Names>(
    alloc: Global,
    names: &S,
    at: u32,
    of: Option<&SvType>,
    o: Operand,
) -> Result<Stmt, Halt>
    requires { IsNarrowOperand o }
    ensures { Gives result (statement.return_value (S.context names.now) at (option_copied of.entry) (operand_of (S.context names.now).source o)) }
{
    return_value(alloc, names.text(), at, of, o)
}

/// A `return` at its word, with the value that is given to the result of the function, or without one (IEEE 1800-2017 clause 12.8).
/// `of` is the type of the result, where there is one.
#[tactic(auto, using(typing_values::proofs::Putting::steps))]
pub fn returned<S: Names, C: Fn(u32, &mut Known) -> Result<u32, Halt>>(
    alloc: Global,
    names: &S,
    needs: &C,
    at: u32,
    of: Option<&SvType>,
    e: Option<&Expr>,
    known: &mut Known,
) -> Result<Stmt, Halt>
    requires needs { MakesKnown _ ((n : _) (k : _) → IsReady k.now → C.pre needs.now n k) (λ k. k.now) (C.post needs.now) (S.context names.now) }
    requires names { Surrounded AllSoundFunctions (S.context names.now) }
    requires of { option_copied of ≡ (S.context names.now).result }
    requires written { written_if (option_copied e) ≡ true }
    requires ready { IsReady known.old }
    ensures value { TypesTo result (statement.returned (S.context names.now) at (option_copied e.entry) known.old.functions) known.new.functions }
    ensures ready { IsReady known.new }
    ensures keeps { Extends known.old.functions known.new.functions }
{
    match e {
        None => Ok(Stmt::Return),
        Some(e) => {
            let o = operand(alloc, names, needs, e, known)?;
            given_back(alloc, names, at, of, o)
        }
    }
}
