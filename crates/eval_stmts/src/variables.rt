//! The variables of loops (IEEE 1800-2017 clause 12.7.1).

ghost use Rattle.std.specs.Prelude.{◌≡◌, ◌≤◌};
ghost use Rattle.eval_exprs.specs.Calls.{CallsRun};
ghost use Rattle.eval_exprs.specs.Held.{formals};
ghost use Rattle.eval_stmts.specs.Controls.{VariableFits, variable_step};
ghost use Rattle.eval_stmts.specs.Stepping.{GoesOn};

use crate::controls::Control;
use crate::env::Env;
use crate::values::assigned_in;
use crate::writes::write_whole;
use eval_exprs::{Call, Called, Scope};
use eval_parts::Halt;
use std::alloc::Global;
use sv_types::Expr;

/// Assigns a value to the variable of a loop.
pub fn set_variable<C: Fn(Call) -> Result<Called, Halt>>(
    alloc: Global,
    calls: &C,
    scope: Scope<'_>,
    control: Control<'_>,
    e: &Expr,
    env: &mut Env,
) -> Result<(), Halt>
    requires calls { CallsRun (C.IsAlwaysCallable calls.now) (C.post calls.now) scope }
    requires first { VariableFits control control.first.now (formals scope) }
    requires fits { VariableFits control e.now (formals scope) }
    ensures { GoesOn result scope.entry (variable_step control.entry e.now) env.old env.new }
{
    let of = &control.first.of;
    let bits = assigned_in(alloc, calls, scope, of, e, env)?;
    Ok(write_whole(alloc, control.local, of, &bits, env)?)
}
