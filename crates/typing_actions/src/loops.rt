//! What loops do behind each turn.

ghost use Rattle.std.specs.Prelude.{◌≡◌, List, true, Some, IfSome};
ghost use Rattle.std.specs.Option.{option_copied, option_map};
ghost use Rattle.sv_types.specs.declared.statement.Function.{Function};
ghost use Rattle.expr_type.specs.Answers.{Gives};
ghost use Rattle.expr_type.specs.Operands as operand;
ghost use Rattle.expr_type.specs.Statements as statement;
ghost use Rattle.expr_type.specs.Targets as def;
ghost use Rattle.expr_type.specs.Typings.{Typing};
ghost use Rattle.frame_things.specs.Finding.{local_id};
ghost use Rattle.pattern_types.specs.Meaning.{operand_of};
ghost use Rattle.routine_fits.specs.Sound.{AllSoundFunctions};
ghost use Rattle.typing_fits.specs.Sound.{Extends, IsNarrowType};
ghost use Rattle.typing_assigns.specs.Parts.{IsNarrowTarget, NarrowTarget};
ghost use Rattle.typing_assigns.specs.Targets.{StandsFor, TargetsTo};
ghost use Rattle.typing_parts.specs.Operands.{as_operand};
ghost use Rattle.typing_parts.specs.Typists.{IsNarrowOperand, IsReady, MakesKnown, NarrowIfOk};
ghost use Rattle.typing_steps.specs.Steps.{TypesTo};
ghost use Rattle.typing_walks.specs.Keeps.{Surrounded};
ghost use Rattle.typing_walks.specs.Written.{is_written};
ghost use Rattle.typing_actions.specs.Loops.{assigned_of, counted_of, step_written, stepped};

use crate::ones::{one, step_operator};
use expr_type::Halt;
use frame_things::NamedLocal;
use operand_types::by_itself;
use pattern_types::Operand;
use std::alloc::Global;
use sv_tree::{AssignmentOperator, LoopStep, StepOperator};
use sv_types::{Expr, Form};
use type_kinds::copy_type;
use typing_assigns::{Target, assigned_by};
use typing_exprs::operand;
use typing_parts::{Known, Names};
use typing_paths::Nets;
use typing_sides::beside;
use typing_values::not_streamed;

// What an assignment at its operator gives to the variable of a loop; no stream stands there (E512).
#[tactic(auto, using(crate::proofs::Assigning::valuing))]
fn step_value<S: Names>(
    alloc: Global,
    names: &S,
    at: u32,
    op: AssignmentOperator,
    to: &Target,
    o: Operand,
) -> Result<Expr, Halt>
    requires target { IsNarrowTarget to.now }
    requires narrow { IsNarrowOperand o }
    ensures { (d : def.Target) → StandsFor to.now d → Gives result (statement.step_value (S.context names.now) at op d (operand_of (S.context names.now).source o)) }
{
    let given = not_streamed(names.text(), o)?;
    assigned_by(alloc, names, at, op, to, given)
}

// The same, where what is assigned to and what is assigned are whole.
#[tactic(auto, using(crate::proofs::Assigning::stepping))]
fn stepped<S: Names>(
    alloc: Global,
    names: &S,
    at: u32,
    op: AssignmentOperator,
    to: Result<Target, Halt>,
    value: Result<Operand, Halt>,
) -> Result<Expr, Halt>
    requires target { NarrowTarget to }
    requires narrow { NarrowIfOk value }
    ensures { (x : Typing def.Target) (y : Typing operand.Operand) (fs gs hs : List Function) → TargetsTo to (x fs) gs → TypesTo (as_operand (S.context names.now).source value) (y gs) hs → TypesTo result (stepped (S.context names.now) at op x y fs) hs }
{
    let (to, value) = beside(to, value)?;
    step_value(alloc, names, at, op, &to, value)
}

// The variable of a loop, whose name stands at this token, as what is assigned to.
fn variable_target<S: Names>(
    alloc: Global,
    names: &S,
    local: &NamedLocal,
    name: u32,
) -> Result<Target, Halt>
    requires narrow { IsNarrowType local.now.of }
    ensures value { (fs : List Function) → TargetsTo result (statement.loop_target (S.context names.now) (Some (local_id local.now)) name fs) fs }
    ensures narrow { NarrowTarget result }
{
    let of = copy_type(alloc, &local.of)?;
    let form = Form::Local(local.number);
    Ok(Target::Path(by_itself(alloc, names.text(), name, of, form)?))
}

// What a step assigns to: the variable of its loop. None is whole where the variable isn't.
#[tactic(auto, using(crate::proofs::Variables::variables))]
fn loop_target<S: Names>(
    alloc: Global,
    names: &S,
    variable: Option<&NamedLocal>,
    name: u32,
) -> Result<Target, Halt>
    requires narrow { IfSome (option_copied variable) (λ l. IsNarrowType l.of) }
    ensures value { (fs : List Function) → TargetsTo result (statement.loop_target (S.context names.now) (option_map local_id (option_copied variable.entry)) name fs) fs }
    ensures narrow { NarrowTarget result }
{
    match variable {
        None => Err(Halt::Quiet),
        Some(local) => variable_target(alloc, names, local, name),
    }
}

// A variable that is counted up or down.
fn counted_step<S: Names>(
    alloc: Global,
    names: &S,
    variable: Option<&NamedLocal>,
    name: u32,
    op: StepOperator,
    at: u32,
) -> Result<Expr, Halt>
    requires narrow { IfSome (option_copied variable) (λ l. IsNarrowType l.of) }
    ensures { (fs : List Function) → TypesTo result (counted_of (S.context names.now) (option_map local_id (option_copied variable.entry)) name op at fs) fs }
{
    let to = loop_target(alloc, names, variable, name);
    let value = one(alloc, names, at);
    stepped(alloc, names, at, step_operator(op), to, value)
}

// A variable to which a value is assigned.
fn assigned_step<S: Nets, C: Fn(u32, &mut Known) -> Result<u32, Halt>>(
    alloc: Global,
    names: &S,
    needs: &C,
    variable: Option<&NamedLocal>,
    name: u32,
    op: AssignmentOperator,
    at: u32,
    e: &sv_tree::Expr,
    known: &mut Known,
) -> Result<Expr, Halt>
    requires needs { MakesKnown _ ((n : _) (k : _) → IsReady k.now → C.pre needs.now n k) (λ k. k.now) (C.post needs.now) (S.context names.now) }
    requires names { Surrounded AllSoundFunctions (S.context names.now) }
    requires narrow { IfSome (option_copied variable) (λ l. IsNarrowType l.of) }
    requires written { is_written e.now ≡ true }
    requires ready { IsReady known.old }
    ensures value { TypesTo result (assigned_of (S.context names.now) (option_map local_id (option_copied variable.entry)) name op at e.now known.old.functions) known.new.functions }
    ensures ready { IsReady known.new }
    ensures keeps { Extends known.old.functions known.new.functions }
{
    let to = loop_target(alloc, names, variable, name);
    let value = operand(alloc, names, needs, e, known);
    stepped(alloc, names, at, op, to, value)
}

/// What a loop gives to its variable behind each turn (IEEE 1800-2017 clauses 11.4.1, 11.4.2 and 12.7.1): no stream stands there (E512).
/// The first break in the order of the text counts; no variable stands for one that isn't whole, of whose step nothing is known.
#[tactic(auto, using(typing_parts::proofs::Keeping::keepings))]
pub fn loop_step<S: Nets, C: Fn(u32, &mut Known) -> Result<u32, Halt>>(
    alloc: Global,
    names: &S,
    needs: &C,
    variable: Option<&NamedLocal>,
    step: &LoopStep,
    known: &mut Known,
) -> Result<Expr, Halt>
    requires needs { MakesKnown _ ((n : _) (k : _) → IsReady k.now → C.pre needs.now n k) (λ k. k.now) (C.post needs.now) (S.context names.now) }
    requires names { Surrounded AllSoundFunctions (S.context names.now) }
    requires narrow { IfSome (option_copied variable) (λ l. IsNarrowType l.of) }
    requires written { step_written step.now ≡ true }
    requires ready { IsReady known.old }
    ensures value { TypesTo result (statement.loop_step (S.context names.now) (option_map local_id (option_copied variable.entry)) step.now known.old.functions) known.new.functions }
    ensures ready { IsReady known.new }
    ensures keeps { Extends known.old.functions known.new.functions }
{
    match step {
        LoopStep::Assign {
            name,
            operator,
            at,
            value,
        } => assigned_step(
            alloc, names, needs, variable, *name, *operator, *at, value, known,
        ),
        LoopStep::Postfix { name, operator, at } => {
            counted_step(alloc, names, variable, *name, *operator, *at)
        }
        LoopStep::Prefix { operator, at, name } => {
            counted_step(alloc, names, variable, *name, *operator, *at)
        }
    }
}
