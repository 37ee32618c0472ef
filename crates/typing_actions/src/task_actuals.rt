//! Actuals of tasks and void functions as they are typed.

ghost use Rattle.std.specs.Prelude.{◌≡◌, true, IfOk};
ghost use Rattle.std.specs.Option.{option_copied};
ghost use Rattle.expr_type.specs.Expressions.{meaning};
ghost use Rattle.expr_type.specs.Statements as statement;
ghost use Rattle.routine_fits.specs.Sound.{AllSoundFunctions};
ghost use Rattle.stmt_laws.specs.Written.{exprs_written};
ghost use Rattle.typing_calls.specs.Lists.{all_meant, as_meant};
ghost use Rattle.typing_fits.specs.Sound.{Extends};
ghost use Rattle.typing_parts.specs.Operands.{as_operand};
ghost use Rattle.typing_parts.specs.Typists.{IsReady, MakesKnown};
ghost use Rattle.typing_steps.specs.Steps.{TypesTo};
ghost use Rattle.typing_actions.specs.TaskActuals.{AreWays, actuals_of, outputs, ways_of};
ghost use Rattle.typing_actions.specs.Calls.{actual_of};
ghost use Rattle.typing_values.specs.Values.{unstreamed_of};
ghost use Rattle.typing_walks.specs.Keeps.{Surrounded};
ghost use Rattle.typing_walks.specs.Written.{is_written};

use crate::passing::Actual;
use crate::{actual_target, operand};
use expr_type::Halt;
use pattern_types::Operand;
use std::alloc::{AllocError, Global};
use sv_tree::Expr;
use sv_types::{Formal, Way};
use typing_calls::followed;
use typing_parts::{Known, Names};
use typing_paths::Nets;
use typing_values::not_streamed;

// The ways of formals.
fn ways_in(alloc: Global, formals: &[Formal]) -> Result<Vec<Way>, AllocError>
    ensures { IfOk result (λ ws. ws.items ≡ ways_of formals.now) }
{
    let mut ways = Vec::new(alloc);
    for formal in formals {
        ways.push(formal.way)?;
    }
    Ok(ways)
}

/// The ways of the formals of what is called, where it is known.
pub(crate) fn ways_at(
    alloc: Global,
    place: &Result<u32, Halt>,
    known: &Known,
) -> Result<Vec<Way>, AllocError>
    ensures { IfOk result (λ ws. AreWays place.now known.now.functions ws.items) }
{
    match place {
        Err(_) => Ok(Vec::new(alloc)),
        Ok(place) => match known.functions.get(*place as usize) {
            None => Ok(Vec::new(alloc)),
            Some(function) => ways_in(alloc, function.formals.as_slice()),
        },
    }
}

// What is passed to an input: no stream (E512).
#[tactic(auto, using(typing_values::proofs::Putting::steps))]
fn value<S: Names, C: Fn(u32, &mut Known) -> Result<u32, Halt>>(
    alloc: Global,
    names: &S,
    needs: &C,
    e: &Expr,
    known: &mut Known,
) -> Result<Operand, Halt>
    requires needs { MakesKnown _ ((n : _) (k : _) → IsReady k.now → C.pre needs.now n k) (λ k. k.now) (C.post needs.now) (S.context names.now) }
    requires names { Surrounded AllSoundFunctions (S.context names.now) }
    requires written { is_written e.now ≡ true }
    requires ready { IsReady known.old }
    ensures value { TypesTo (as_operand (S.context names.now).source result) (unstreamed_of (S.context names.now) e.now known.old.functions) known.new.functions }
    ensures ready { IsReady known.new }
    ensures keeps { Extends known.old.functions known.new.functions }
{
    let o = operand(alloc, names, needs, e, known)?;
    not_streamed(names.text(), o)
}

// Whether what a formal gives is assigned to its actual.
fn is_output(way: Option<&Way>) -> bool
    ensures { result ≡ outputs (option_copied way.entry) }
{
    match way {
        None => false,
        Some(Way::Input) => false,
        Some(Way::Output) => true,
        Some(Way::Inout) => true,
    }
}

// An actual by the way of its formal, if it has one.
#[tactic(auto, using(crate::proofs::Ways::ways))]
fn actual<S: Nets, C: Fn(u32, &mut Known) -> Result<u32, Halt>>(
    alloc: Global,
    names: &S,
    needs: &C,
    way: Option<&Way>,
    e: &Expr,
    known: &mut Known,
) -> Result<Actual, Halt>
    requires needs { MakesKnown _ ((n : _) (k : _) → IsReady k.now → C.pre needs.now n k) (λ k. k.now) (C.post needs.now) (S.context names.now) }
    requires names { Surrounded AllSoundFunctions (S.context names.now) }
    requires written { is_written e.now ≡ true }
    requires ready { IsReady known.old }
    ensures value { TypesTo (as_meant (actual_of (S.context names.now).source) result) (statement.actual_by (S.context names.now) (option_copied way.entry) (meaning e.now) known.old.functions) known.new.functions }
    ensures ready { IsReady known.new }
    ensures keeps { Extends known.old.functions known.new.functions }
{
    if is_output(way) {
        let to = actual_target(alloc, names, needs, e, known)?;
        Ok(Actual::Target(to))
    } else {
        let o = value(alloc, names, needs, e, known)?;
        Ok(Actual::Value(o))
    }
}

/// Actuals by the ways of their formals, in the order of the text (IEEE 1800-2017 clause 13.5). All are looked at, also behind one that
/// isn't whole.
pub(crate) fn actuals<S: Nets, C: Fn(u32, &mut Known) -> Result<u32, Halt>>(
    alloc: Global,
    names: &S,
    needs: &C,
    ways: &[Way],
    es: &[Expr],
    known: &mut Known,
) -> Result<Vec<Actual>, Halt>
    requires needs { MakesKnown _ ((n : _) (k : _) → IsReady k.now → C.pre needs.now n k) (λ k. k.now) (C.post needs.now) (S.context names.now) }
    requires names { Surrounded AllSoundFunctions (S.context names.now) }
    requires written { exprs_written es.now ≡ true }
    requires ready { IsReady known.old }
    ensures value { TypesTo (all_meant (actual_of (S.context names.now).source) result) (actuals_of (S.context names.now) ways.now es.now known.old.functions) known.new.functions }
    ensures ready { IsReady known.new }
    ensures keeps { Extends known.old.functions known.new.functions }
{
    let mut made: Result<Vec<Actual>, Halt> = Ok(Vec::new(alloc));
    for (i, e) in es.iter().enumerate() {
        let next = actual(alloc, names, needs, sv_source::at(ways, i), e, known);
        made = followed(made, next);
    }
    made
}
