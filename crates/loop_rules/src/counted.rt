//! Loops whose bounds are known and whose variable isn't written in them.

ghost use Rattle.std.specs.Prelude.{◌≡◌, ◌∷◌, ◌&&◌, ◌≤◌, [], not, true};
ghost use Rattle.sv_types.specs.Layouts.{width_of};
ghost use Rattle.eval_forms.specs.Callees.{formals_in};
ghost use Rattle.eval_runs.specs.Functions.{AllCanRun};
ghost use Rattle.eval_stmts.specs.Controls.{ControlFits};
ghost use Rattle.expr_flows.specs.Full.{all_full};
ghost use Rattle.stmt_flows.specs.Turns.{variable_of};
ghost use Rattle.loop_rules.specs.Counted.{CountedGives};

use crate::targets::writes;
use bound_values::look_at;
use eval_stmts::Control;
use expr_flows::{Known, Variable};
use part_flows::with_variable;
use std::alloc::{AllocError, Global};
use sv_types::{Stmt, width as width_of_type};

/// The variable of a loop.
pub fn variable_in(control: Control<'_>) -> Variable
    requires { width_of control.first.now.of ≤ 4194304 }
    ensures { result ≡ variable_of control.entry }
{
    Variable {
        local: control.local,
        width: width_of_type(&control.first.of),
    }
}

fn all_so(first: bool, test: bool, step: bool, written: bool) -> bool
    ensures { result ≡ ((first && (test && step)) && not written) }
{
    first && test && step && !written
}

/// Whether the bounds of a loop read nothing but constants and the variables of the loops around, and its variable isn't written
/// in it.
pub fn is_counted(
    alloc: Global,
    known: Known<'_>,
    control: Control<'_>,
    body: &Stmt,
) -> Result<bool, AllocError>
    requires functions { AllCanRun known.functions.now }
    requires fits { ControlFits control (formals_in known.functions.now) }
    requires narrow { width_of control.first.now.of ≤ 4194304 }
    requires full { all_full (formals_in known.functions.now) (control.first.now ∷ control.test.now ∷ control.step.now ∷ []) ≡ true }
    ensures { CountedGives result known.entry control.entry body.now }
{
    let first = look_at(alloc, known, control.first)?;
    let variables = with_variable(alloc, variable_in(control), known.variables)?;
    let inside = Known {
        functions: known.functions,
        locals: known.locals,
        variables: variables.as_slice(),
    };
    let test = look_at(alloc, inside, control.test)?;
    let step = look_at(alloc, inside, control.step)?;
    let number = 4294967296 + control.local as u64;
    let written = writes(known.functions, body, number);
    Ok(all_so(first.constant, test.constant, step.constant, written))
}
