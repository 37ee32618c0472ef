//! Turns of loops (IEEE 1800-2017 clause 12.7.1).

ghost use Rattle.std.specs.Prelude.{IfOk, ◌≡◌, ◌∷◌, ◌≤◌, true, false, []};
ghost use Rattle.sv_types.specs.declared.statement.Outcome.TheVariants as O;
ghost use Rattle.sv_types.specs.declared.statement.Stmt.{Stmt};
ghost use Rattle.sv_types.specs.Expressions.{meaning};
ghost use Rattle.sv_types.specs.Flows as F;
ghost use Rattle.sv_types.specs.Layouts.{width_of};
ghost use Rattle.sv_types.specs.Surroundings.{Sight};
ghost use Rattle.eval_forms.specs.Callees.{formals_in};
ghost use Rattle.eval_runs.specs.Functions.{AllCanRun};
ghost use Rattle.eval_stmts.specs.Controls.{ControlFits};
ghost use Rattle.flow_sets.specs.Ends.{AreKnown};
ghost use Rattle.flow_sets.specs.Flows.{IsFlow};
ghost use Rattle.expr_flows.specs.Full.{all_full};
ghost use Rattle.expr_flows.specs.Known.{sight, sight_in};
ghost use Rattle.stmt_flows.specs.Scopes.{OwnGives};
ghost use Rattle.stmt_flows.specs.Turns.{AfterGives, AreTurns, EnterGives, FinalGives, IsInside, LastGives, loop_of, variable_of, turns_of, marks_of_control};

use crate::fails::StmtFail;
use crate::scopes::started;
use b4_core::Vec4;
use eval_stmts::Control;
use expr_flows::{Known, Variable};
use flow_sets::{Found, and_then, catching_breaks, idle};
use part_flows::{copied, hold, next_value, setting, tested, with_variable};
use std::alloc::Global;
use sv_types::width as width_of_type;

/// Some turns of a loop, and whether the loop ends with them.
#[derive(Drop)]
pub struct Turned {
    /// What is known of these turns.
    pub found: Found,
    /// Whether no other turn follows.
    pub ended: bool,
}

/// What is known in the turns of a loop.
#[derive(Drop)]
pub struct Inside {
    /// The variables that are known, this loop's first.
    pub variables: Vec<Variable>,
    /// What locals hold.
    pub locals: Vec<Option<Vec4>>,
}

// The variable of a loop.
fn variable_in(control: Control<'_>) -> Variable
    requires { width_of control.first.now.of ≤ 4194304 }
    ensures { result ≡ variable_of control.entry }
{
    Variable {
        local: control.local,
        width: width_of_type(&control.first.of),
    }
}

/// What is known in the first turn of a loop, if the variable's first value is.
pub fn enter(
    alloc: Global,
    known: Known<'_>,
    control: Control<'_>,
) -> Result<Option<Inside>, StmtFail>
    requires functions { AllCanRun known.functions.now }
    requires fits { ControlFits control (formals_in known.functions.now) }
    requires narrow { width_of control.first.now.of ≤ 4194304 }
    requires full { all_full (formals_in known.functions.now) (control.first.now ∷ control.test.now ∷ control.step.now ∷ []) ≡ true }
    ensures { EnterGives result known.entry control.entry }
{
    match next_value(alloc, known, &control.first.of, control.first)? {
        None => Ok(None),
        Some(first) => {
            let v = variable_in(control);
            let variables = with_variable(alloc, v, known.variables)?;
            let mut locals = copied(alloc, known.locals)?;
            hold(alloc, &mut locals, v, &first)?;
            Ok(Some(Inside { variables, locals }))
        }
    }
}

/// What follows the body of a turn: the variable's next value, if it is known.
pub fn after_body(
    alloc: Global,
    known: Known<'_>,
    control: Control<'_>,
    turn: Found,
    locals: &mut Vec<Option<Vec4>>,
) -> Result<Turned, StmtFail>
    requires functions { AllCanRun known.functions.now }
    requires fits { ControlFits control (formals_in known.functions.now) }
    requires narrow { width_of control.first.now.of ≤ 4194304 }
    requires full { all_full (formals_in known.functions.now) (control.first.now ∷ control.test.now ∷ control.step.now ∷ []) ≡ true }
    requires inside { IsInside (variable_of control) known.variables.now }
    requires turn { AreKnown turn.ends }
    ensures { (b : Stmt) (g : F.Flow) → IsFlow turn g → AfterGives result (loop_of control.entry b) g (sight_in known.entry.functions.now locals.old.items known.entry.variables.now) (sight_in known.entry.functions.now locals.new.items known.entry.variables.now) }
{
    let here = Known {
        functions: known.functions,
        locals: locals.as_slice(),
        variables: known.variables,
    };
    match next_value(alloc, here, &control.first.of, control.step)? {
        None => {
            let found = and_then(alloc, turn, idle(alloc, false))?;
            Ok(Turned { found, ended: true })
        }
        Some(next) => {
            let v = variable_in(control);
            hold(alloc, locals, v, &next)?;
            let set = setting(alloc, v.local, v.width)?;
            let found = and_then(alloc, turn, set)?;
            Ok(Turned {
                found,
                ended: false,
            })
        }
    }
}

// A loop that makes no further turn.
fn last_flow(alloc: Global, known: Known<'_>, control: Control<'_>) -> Result<Found, StmtFail>
    requires functions { AllCanRun known.functions.now }
    requires fits { ControlFits control (formals_in known.functions.now) }
    requires full { all_full (formals_in known.functions.now) (control.first.now ∷ control.test.now ∷ control.step.now ∷ []) ≡ true }
    ensures known { IfOk result (λ r. AreKnown r.ends) }
    ensures gives { (b : Stmt) → LastGives result (loop_of control.entry b) (sight known.entry) }
{
    match tested(alloc, known, control.test)? {
        None => Ok(idle(alloc, false)),
        Some(goes_on) => Ok(idle(alloc, !goes_on)),
    }
}

/// All turns of a loop, by the most that may be made: no further one follows.
pub fn all_turns(
    alloc: Global,
    known: Known<'_>,
    control: Control<'_>,
    turned: Turned,
) -> Result<Found, StmtFail>
    requires functions { AllCanRun known.functions.now }
    requires fits { ControlFits control (formals_in known.functions.now) }
    requires full { all_full (formals_in known.functions.now) (control.first.now ∷ control.test.now ∷ control.step.now ∷ []) ≡ true }
    requires turned { AreKnown turned.found.ends }
    ensures { (b : Stmt) (h : Sight) → AreTurns turned.ended turned.found (loop_of control.entry b) 65536 h (sight known.entry) → FinalGives result (loop_of control.entry b) h }
{
    if turned.ended {
        let found = catching_breaks(alloc, turned.found)?;
        return Ok(found);
    }
    let last = last_flow(alloc, known, control)?;
    let all = and_then(alloc, turned.found, last)?;
    let caught = catching_breaks(alloc, all)?;
    Ok(caught)
}

/// A loop with these turns: its variable is written first.
pub fn whole_loop(
    alloc: Global,
    known: Known<'_>,
    control: Control<'_>,
    turns: Found,
) -> Result<Found, StmtFail>
    requires functions { AllCanRun known.functions.now }
    requires fits { ControlFits control (formals_in known.functions.now) }
    requires narrow { width_of control.first.now.of ≤ 4194304 }
    requires full { all_full (formals_in known.functions.now) (control.first.now ∷ control.test.now ∷ control.step.now ∷ []) ≡ true }
    requires turns { AreKnown turns.ends }
    ensures { (f : F.Flow) → IsFlow turns f → OwnGives result known.entry (control.entry.first.now ∷ []) (F.and_then (F.and_then (F.reading ((meaning control.entry.first.now).reads (sight known.entry))) (F.setting control.entry.local (marks_of_control control.entry))) f) }
{
    let width = width_of_type(&control.first.of);
    let start = started(alloc, known, control.local, width, control.first)?;
    Ok(and_then(alloc, start, turns)?)
}
