//! The turns of a loop, where no signal counts.

ghost use Rattle.std.specs.Prelude.{◌≡◌, ◌∷◌, ◌≤◌, [], true, IfOk};
ghost use Rattle.sv_types.specs.Layouts.{layout, width_of};
ghost use Rattle.sv_types.specs.Operators.{assigned_to};
ghost use Rattle.sv_types.specs.Expressions.{meaning};
ghost use Rattle.eval_forms.specs.Callees.{formals_in};
ghost use Rattle.eval_runs.specs.Functions.{AllCanRun};
ghost use Rattle.eval_stmts.specs.Controls.{ControlFits};
ghost use Rattle.expr_flows.specs.Full.{all_full};
ghost use Rattle.expr_flows.specs.Known.{sight, sight_in};
ghost use Rattle.stmt_flows.specs.Turns.{IsInside, variable_of};
ghost use Rattle.design_breaks.specs.Indices.{unheld};
ghost use Rattle.loop_rules.specs.Counted.{control_at};
ghost use Rattle.loop_rules.specs.Turns.{IsEntered, StepGives, TestGoes, TurnGives, LastingGives};

use crate::variable_in;
use b4_core::Vec4;
use bound_values::{Bound, Test, assigned, tested};
use eval_stmts::Control;
use expr_flows::{Known, Variable};
use part_flows::{copied, hold, with_variable};
use std::alloc::{AllocError, Global};

/// What is known in the turns of a loop.
#[derive(Drop)]
pub struct Inside {
    /// The variables that are known, this loop's first.
    pub variables: Vec<Variable>,
    /// What locals hold.
    pub locals: Vec<Option<Vec4>>,
}

/// A turn of a loop.
#[derive(Clone, Copy, Debug)]
pub enum Turn {
    /// A bound takes too long, at this token.
    Long(u32),
    /// None is made.
    Stops,
    /// One is made, and another one may follow.
    Goes,
}

/// What is known in the first turn of a loop whose variable starts with these bits.
pub fn enter(
    alloc: Global,
    known: Known<'_>,
    control: Control<'_>,
    first: &Vec4,
) -> Result<Inside, AllocError>
    requires narrow { width_of control.first.now.of ≤ 4194304 }
    requires first { first.now ≡ assigned_to (layout control.first.now.of).two_state (meaning control.first.now) (unheld (sight known).around) }
    ensures { IfOk result (IsEntered known.entry control.entry) }
{
    let v = variable_in(control);
    let variables = with_variable(alloc, v, known.variables)?;
    let mut locals = copied(alloc, known.locals)?;
    hold(alloc, &mut locals, v, first)?;
    Ok(Inside { variables, locals })
}

/// The next value of the variable is held, or else the token at which it takes too long is given.
pub fn advance(
    alloc: Global,
    known: Known<'_>,
    control: Control<'_>,
    locals: &mut Vec<Option<Vec4>>,
) -> Result<Option<u32>, AllocError>
    requires functions { AllCanRun known.functions.now }
    requires fits { ControlFits control (formals_in known.functions.now) }
    requires narrow { width_of control.first.now.of ≤ 4194304 }
    requires full { all_full (formals_in known.functions.now) (control.first.now ∷ control.test.now ∷ control.step.now ∷ []) ≡ true }
    requires inside { IsInside (variable_of control) known.variables.now }
    ensures { StepGives result control.entry (sight_in known.entry.functions.now locals.old.items known.entry.variables.now) (sight_in known.entry.functions.now locals.new.items known.entry.variables.now) }
{
    let here = Known {
        functions: known.functions,
        locals: locals.as_slice(),
        variables: known.variables,
    };
    match assigned(alloc, here, &control.first.of, control.step)? {
        Bound::Long(at) => Ok(Some(at)),
        Bound::Bits(next) => {
            let v = variable_in(control);
            hold(alloc, locals, v, &next)?;
            Ok(None)
        }
    }
}

/// Whether a further turn is made.
pub fn goes_on(
    alloc: Global,
    known: Known<'_>,
    control: Control<'_>,
    locals: &[Option<Vec4>],
) -> Result<Test, AllocError>
    requires functions { AllCanRun known.functions.now }
    requires fits { ControlFits control (formals_in known.functions.now) }
    requires full { all_full (formals_in known.functions.now) (control.first.now ∷ control.test.now ∷ control.step.now ∷ []) ≡ true }
    ensures { TestGoes result control.entry (sight_in known.entry.functions.now locals.now known.entry.variables.now) }
{
    let here = Known {
        functions: known.functions,
        locals,
        variables: known.variables,
    };
    tested(alloc, here, control.test)
}

// A turn in which nothing runs.
#[tactic(auto, using(crate::proofs::Stepping::bare_turns))]
fn bare_turn(
    alloc: Global,
    known: Known<'_>,
    control: Control<'_>,
    locals: &mut Vec<Option<Vec4>>,
) -> Result<Turn, AllocError>
    requires functions { AllCanRun known.functions.now }
    requires fits { ControlFits control (formals_in known.functions.now) }
    requires narrow { width_of control.first.now.of ≤ 4194304 }
    requires full { all_full (formals_in known.functions.now) (control.first.now ∷ control.test.now ∷ control.step.now ∷ []) ≡ true }
    requires inside { IsInside (variable_of control) known.variables.now }
    ensures { TurnGives result control.entry (sight_in known.entry.functions.now locals.old.items known.entry.variables.now) (sight_in known.entry.functions.now locals.new.items known.entry.variables.now) }
{
    match goes_on(alloc, known, control, locals.as_slice())? {
        Test::Long(at) => Ok(Turn::Long(at)),
        Test::Stops => Ok(Turn::Stops),
        Test::Goes => match advance(alloc, known, control, locals)? {
            Some(at) => Ok(Turn::Long(at)),
            None => Ok(Turn::Goes),
        },
    }
}

// No further turn may be made.
#[tactic(auto, using(crate::proofs::Stepping::last_turns))]
fn last_turn(
    alloc: Global,
    known: Known<'_>,
    control: Control<'_>,
    at: u32,
    locals: &[Option<Vec4>],
) -> Result<Option<u32>, AllocError>
    requires functions { AllCanRun known.functions.now }
    requires fits { ControlFits control (formals_in known.functions.now) }
    requires full { all_full (formals_in known.functions.now) (control.first.now ∷ control.test.now ∷ control.step.now ∷ []) ≡ true }
    ensures { LastingGives result (control_at at control.entry) 0 (sight_in known.entry.functions.now locals.now known.entry.variables.now) }
{
    match goes_on(alloc, known, control, locals)? {
        Test::Long(long) => Ok(Some(long)),
        Test::Stops => Ok(None),
        Test::Goes => Ok(Some(at)),
    }
}

/// Where the turns of a loop stop by a bound that takes too long, or its `for` if it makes over 65,536 turns; none if they end.
pub fn lasting(
    alloc: Global,
    known: Known<'_>,
    control: Control<'_>,
    at: u32,
) -> Result<Option<u32>, AllocError>
    requires functions { AllCanRun known.functions.now }
    requires fits { ControlFits control (formals_in known.functions.now) }
    requires narrow { width_of control.first.now.of ≤ 4194304 }
    requires full { all_full (formals_in known.functions.now) (control.first.now ∷ control.test.now ∷ control.step.now ∷ []) ≡ true }
    requires inside { IsInside (variable_of control) known.variables.now }
    ensures { LastingGives result (control_at at control.entry) 65536 (sight known.entry) }
{
    let mut locals = copied(alloc, known.locals)?;
    for _turn in 0u32..65536 {
        match bare_turn(alloc, known, control, &mut locals)? {
            Turn::Long(long) => return Ok(Some(long)),
            Turn::Stops => return Ok(None),
            Turn::Goes => {}
        }
    }
    last_turn(alloc, known, control, at, locals.as_slice())
}
