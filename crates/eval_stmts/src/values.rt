//! The values of expressions in an environment.

ghost use Rattle.std.specs.Prelude.{◌≡◌, ◌≤◌, length};
ghost use Rattle.sv_types.specs.Layouts.{layout, width_of};
ghost use Rattle.sv_types.specs.Meanings.{wide, signed};
ghost use Rattle.sv_types.specs.Operators.{assigned_width};
ghost use Rattle.sv_types.specs.Expressions.{meaning};
ghost use Rattle.eval_parts.specs.Answers.{Gives};
ghost use Rattle.eval_parts.specs.Limits.{Fits, FitsAlone};
ghost use Rattle.eval_exprs.specs.Calls.{CallsRun};
ghost use Rattle.eval_exprs.specs.Held.{formals};
ghost use Rattle.eval_stmts.specs.Environments.{standing, SameSlots};
ghost use Rattle.eval_stmts.specs.Stepping.{Counts};
ghost use Rattle.eval_stmts.specs.Values.{AssignedTo, TruthGives};

use crate::env::Env;
use b4_core::{Bit4, Vec4, truth};
use eval_exprs::{Call, Called, Held, Scope, bits, given_bits};
use eval_parts::{Halt, own_sign, own_width};
use std::alloc::Global;
use sv_types::{Expr, SvType, store, width as width_of_type};

/// One more statement runs; `Turns` where none may.
pub fn count(budget: &mut Option<u64>) -> Result<(), Halt>
    ensures { Counts result budget.old budget.new }
{
    match *budget {
        None => Ok(()),
        Some(0) => Err(Halt::Turns),
        Some(n) => {
            *budget = Some(n - 1);
            Ok(())
        }
    }
}

/// The bits of an expression at a width and a sign.
pub fn bits_in<C: Fn(Call) -> Result<Called, Halt>>(
    alloc: Global,
    calls: &C,
    scope: Scope<'_>,
    e: &Expr,
    width: u32,
    signed: bool,
    env: &mut Env,
) -> Result<Vec4, Halt>
    requires calls { CallsRun (C.IsAlwaysCallable calls.now) (C.post calls.now) scope }
    requires fits { Fits (meaning e.now) (formals scope) width }
    ensures same { SameSlots env.old env.new }
    ensures gives { Gives result (meaning e.now) width signed (standing scope.entry env.old) env.old.budget env.new.budget }
{
    let held = Held {
        signals: env.signals.as_slice(),
        locals: env.locals.as_slice(),
        scope,
    };
    bits(alloc, calls, held, e, width, signed, &mut env.budget)
}

/// The bits of an expression alone.
pub fn alone_in<C: Fn(Call) -> Result<Called, Halt>>(
    alloc: Global,
    calls: &C,
    scope: Scope<'_>,
    e: &Expr,
    env: &mut Env,
) -> Result<Vec4, Halt>
    requires calls { CallsRun (C.IsAlwaysCallable calls.now) (C.post calls.now) scope }
    requires fits { FitsAlone (meaning e.now) (formals scope) }
    ensures same { SameSlots env.old env.new }
    ensures gives { Gives result (meaning e.now) (wide (meaning e.now)) (signed (meaning e.now)) (standing scope.entry env.old) env.old.budget env.new.budget }
{
    bits_in(alloc, calls, scope, e, own_width(e), own_sign(e), env)
}

/// What an expression assigns to a place of a type (IEEE 1800-2017 clause 10.7).
pub fn assigned_in<C: Fn(Call) -> Result<Called, Halt>>(
    alloc: Global,
    calls: &C,
    scope: Scope<'_>,
    of: &SvType,
    e: &Expr,
    env: &mut Env,
) -> Result<Vec4, Halt>
    requires calls { CallsRun (C.IsAlwaysCallable calls.now) (C.post calls.now) scope }
    requires narrow { width_of of.now ≤ 4194304 }
    requires fits { Fits (meaning e.now) (formals scope) (assigned_width (layout of.now).two_state (meaning e.now)) }
    ensures same { SameSlots env.old env.new }
    ensures gives { AssignedTo result (layout of.now).two_state (meaning e.now) (standing scope.entry env.old) env.old.budget env.new.budget }
{
    let width = width_of_type(of);
    let value = bits_in(
        alloc,
        calls,
        scope,
        e,
        width.max(own_width(e)),
        own_sign(e),
        env,
    )?;
    let given = given_bits(alloc, e, width, &value)?;
    Ok(store(alloc, of, &given)?)
}

/// Whether a condition is true: a bit of it is 1.
pub fn is_true_in<C: Fn(Call) -> Result<Called, Halt>>(
    alloc: Global,
    calls: &C,
    scope: Scope<'_>,
    e: &Expr,
    env: &mut Env,
) -> Result<bool, Halt>
    requires calls { CallsRun (C.IsAlwaysCallable calls.now) (C.post calls.now) scope }
    requires fits { FitsAlone (meaning e.now) (formals scope) }
    ensures same { SameSlots env.old env.new }
    ensures gives { TruthGives result (meaning e.now) (standing scope.entry env.old) env.old.budget env.new.budget }
{
    let value = alone_in(alloc, calls, scope, e, env)?;
    Ok(truth(&value) == Bit4::One)
}
