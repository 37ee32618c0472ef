//! Locals, which start anew each time that their block runs (IEEE 1800-2017 clause 6.21).

ghost use Rattle.std.specs.Prelude.{List, ◌++◌};
ghost use Rattle.sv_types.specs.Efforts.{Step};
ghost use Rattle.sv_types.specs.Statements.{starts};
ghost use Rattle.eval_exprs.specs.Calls.{CallsRun};
ghost use Rattle.eval_exprs.specs.Held.{formals};
ghost use Rattle.eval_stmts.specs.Limits.{LocalFits, AllLocalsFit};
ghost use Rattle.eval_stmts.specs.Stepping.{GoesOn, Leaves, in_turn, start_step};

use crate::env::Env;
use crate::values::assigned_in;
use crate::writes::{default_bits_of, write_whole};
use eval_exprs::{Call, Called, Scope};
use eval_parts::Halt;
use std::alloc::Global;
use sv_types::Local;

// Starts a local.
fn start<C: Fn(Call) -> Result<Called, Halt>>(
    alloc: Global,
    calls: &C,
    scope: Scope<'_>,
    local: &Local,
    env: &mut Env,
) -> Result<(), Halt>
    requires calls { CallsRun (C.IsAlwaysCallable calls.now) (C.post calls.now) scope }
    requires fits { LocalFits local.now (formals scope) }
    ensures { GoesOn result scope.entry (start_step local.now) env.old env.new }
{
    match &local.initial {
        None => {
            let bits = default_bits_of(alloc, &local.of)?;
            Ok(write_whole(alloc, local.number, &local.of, &bits, env)?)
        }
        Some(e) => {
            let bits = assigned_in(alloc, calls, scope, &local.of, e, env)?;
            Ok(write_whole(alloc, local.number, &local.of, &bits, env)?)
        }
    }
}

/// Starts locals in order.
pub fn start_all<C: Fn(Call) -> Result<Called, Halt>>(
    alloc: Global,
    calls: &C,
    scope: Scope<'_>,
    locals: &[Local],
    env: &mut Env,
) -> Result<(), Halt>
    requires calls { CallsRun (C.IsAlwaysCallable calls.now) (C.post calls.now) scope }
    requires fits { AllLocalsFit locals.now (formals scope) }
    ensures { (rest : List Step) → Leaves result scope.entry (in_turn rest) (in_turn (starts locals.now ++ rest)) env.old env.new }
{
    for local in locals {
        start(alloc, calls, scope, local, env)?;
    }
    Ok(())
}
