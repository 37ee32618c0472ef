//! Calls of tasks and void functions.

ghost use Rattle.std.specs.Prelude.{◌≡◌, map, true};
ghost use Rattle.expr_type.specs.Expressions.{meaning};
ghost use Rattle.expr_type.specs.Statements as statement;
ghost use Rattle.routine_fits.specs.Sound.{AllSoundFunctions};
ghost use Rattle.stmt_laws.specs.Written.{exprs_written};
ghost use Rattle.typing_fits.specs.Sound.{Extends};
ghost use Rattle.typing_parts.specs.Typists.{IsReady, MakesKnown};
ghost use Rattle.typing_steps.specs.Steps.{TypesTo};
ghost use Rattle.typing_actions.specs.Calls.{Called, other_call_of};
ghost use Rattle.typing_walks.specs.Keeps.{Surrounded};

use crate::passing::{Actual, called_stmt};
use crate::task_actuals::{actuals, ways_at};
use expr_type::Halt;
use std::alloc::Global;
use sv_tree::{Expr, QualifiedName};
use sv_types::Stmt;
use typing_calls::{has_count, needed, uncounted};
use typing_parts::{Known, Names};
use typing_paths::Nets;
use typing_sides::beside;

// A call of what is known at a place, of actuals that have been looked at.
#[tactic(auto, using(crate::proofs::Tasks::called))]
fn called<S: Names>(
    alloc: Global,
    names: &S,
    of: QualifiedName,
    place: Result<u32, Halt>,
    actuals: Result<Vec<Actual>, Halt>,
    known: &Known,
) -> Result<Stmt, Halt>
    ensures { Called (S.context names.now) of.name place actuals known.now.functions result }
{
    let (place, actuals) = beside(place, actuals)?;
    called_stmt(
        alloc,
        names.text(),
        of.name,
        place,
        actuals,
        known.functions.as_slice(),
    )
}

// A call of as many actuals as there are formals: inputs are passed, and outputs assigned to their actuals. Where the task isn't whole and
// breaks no rule, the actuals are looked at for their breaks.
fn counted_task<S: Nets, C: Fn(u32, &mut Known) -> Result<u32, Halt>>(
    alloc: Global,
    names: &S,
    needs: &C,
    of: QualifiedName,
    arguments: &[Expr],
    known: &mut Known,
) -> Result<Stmt, Halt>
    requires needs { MakesKnown _ ((n : _) (k : _) → IsReady k.now → C.pre needs.now n k) (λ k. k.now) (C.post needs.now) (S.context names.now) }
    requires names { Surrounded AllSoundFunctions (S.context names.now) }
    requires written { exprs_written arguments.now ≡ true }
    requires ready { IsReady known.old }
    ensures value { TypesTo result (statement.counted_call (S.context names.now) of (map meaning arguments.now) known.old.functions) known.new.functions }
    ensures ready { IsReady known.new }
    ensures keeps { Extends known.old.functions known.new.functions }
{
    let place = needed(names, needs, of, known);
    let ways = ways_at(alloc, &place, known)?;
    let passed = actuals(alloc, names, needs, ways.as_slice(), arguments, known);
    called(alloc, names, of, place, passed, known)
}

// Whole actuals of another number than there are formals break E405 at the name.
fn miscounted(_actuals: Vec<Actual>, name: u32) -> Halt
    ensures { result ≡ Halt.Breaks name 405 }
{
    Halt::Breaks {
        at: name,
        rule: 405,
    }
}

// A call of another number of actuals than there are formals, which are looked at as values: E405 at the name where these are whole, else
// what they or the task break.
#[tactic(auto, using(crate::proofs::Tasks::counts))]
fn other_task<S: Nets, C: Fn(u32, &mut Known) -> Result<u32, Halt>>(
    alloc: Global,
    names: &S,
    needs: &C,
    of: QualifiedName,
    arguments: &[Expr],
    known: &mut Known,
) -> Result<Stmt, Halt>
    requires needs { MakesKnown _ ((n : _) (k : _) → IsReady k.now → C.pre needs.now n k) (λ k. k.now) (C.post needs.now) (S.context names.now) }
    requires names { Surrounded AllSoundFunctions (S.context names.now) }
    requires written { exprs_written arguments.now ≡ true }
    requires ready { IsReady known.old }
    ensures value { TypesTo result (other_call_of (S.context names.now) of arguments.now known.old.functions) known.new.functions }
    ensures ready { IsReady known.new }
    ensures keeps { Extends known.old.functions known.new.functions }
{
    let before = known.functions.len();
    match actuals(alloc, names, needs, &[], arguments, known) {
        Ok(passed) => Err(miscounted(passed, of.name)),
        Err(halt) => Err(uncounted(alloc, names, needs, of, before, halt, known)),
    }
}

/// A call of the task or void function that a name finds (IEEE 1800-2017 clauses 13.3 and 13.5), which is made known where it isn't. One of
/// another number of actuals than there are formals breaks E405 at the name where these are whole.
#[tactic(auto, using(crate::proofs::Tasks::either))]
pub fn task_called<S: Nets, C: Fn(u32, &mut Known) -> Result<u32, Halt>>(
    alloc: Global,
    names: &S,
    needs: &C,
    of: QualifiedName,
    arguments: &[Expr],
    known: &mut Known,
) -> Result<Stmt, Halt>
    requires needs { MakesKnown _ ((n : _) (k : _) → IsReady k.now → C.pre needs.now n k) (λ k. k.now) (C.post needs.now) (S.context names.now) }
    requires names { Surrounded AllSoundFunctions (S.context names.now) }
    requires written { exprs_written arguments.now ≡ true }
    requires ready { IsReady known.old }
    ensures value { TypesTo result (statement.call_stmt (S.context names.now) of (map meaning arguments.now) known.old.functions) known.new.functions }
    ensures ready { IsReady known.new }
    ensures keeps { Extends known.old.functions known.new.functions }
{
    if has_count(names, of, arguments.len()) {
        counted_task(alloc, names, needs, of, arguments, known)
    } else {
        other_task(alloc, names, needs, of, arguments, known)
    }
}
