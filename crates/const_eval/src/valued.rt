//! The values of expressions (IEEE 1800-2017 clause 11).

ghost use Rattle.std.specs.Prelude.{◌≡◌, ◌≤◌};
ghost use Rattle.sv_types.specs.Expressions.{meaning};
ghost use Rattle.sv_types.specs.Functions.{callees_within};
ghost use Rattle.sv_types.specs.Layouts.{width_of};
ghost use Rattle.eval_parts.specs.Limits.{FitsAlone};
ghost use Rattle.eval_forms.specs.Callees.{formals_in};
ghost use Rattle.eval_exprs.specs.Calls.{CalledGives};
ghost use Rattle.eval_runs.specs.Functions.{AllCanRun};
ghost use Rattle.const_eval.specs.Values.{AloneGives, NumberIs, SizeIs, ValueIs};

use crate::fails::{EvalFail, SizeFail, fail_of};
use crate::numbers::{number_if_known, number_within};
use b4_core::Vec4;
use eval_exprs::{Call, Called, Held, Scope, bits};
use eval_parts::{Halt, own_sign, own_width};
use eval_runs::run_call;
use eval_stmts::Env;
use std::alloc::Global;
use sv_types::{Expr, Function, Functions, Value, of_bits};

// The bits of an expression alone.
fn alone(alloc: Global, e: &Expr, functions: &[Function], env: &Env) -> Result<Vec4, Halt>
    requires functions { AllCanRun functions.now }
    requires fits { FitsAlone (meaning e.now) (formals_in functions.now) }
    ensures { AloneGives result e.now functions.now env.now }
{
    let depth = functions.len();
    let calls = |call: Call| -> Result<Called, Halt>
        requires { AllCanRun functions.now }
        ensures { CalledGives result (callees_within depth functions.entry.now call.function) call }
    { run_call(alloc, functions, depth, call) };
    let held = Held {
        signals: env.signals.as_slice(),
        locals: env.locals.as_slice(),
        scope: Scope { functions, depth },
    };
    let mut budget = env.budget;
    bits(
        alloc,
        &calls,
        held,
        e,
        own_width(e),
        own_sign(e),
        &mut budget,
    )
}

/// The value of an expression (IEEE 1800-2017 clause 11). `NotConstant` exactly where its run first stops at the read of a signal
/// that isn't held, which it names, and `Turns`, at the expression's first token, exactly where it first stops because a loop
/// wants more than 65,536 turns or more statements run than the budget has; `Memory` where memory runs out.
pub fn value(alloc: Global, e: &Expr, functions: &Functions, env: &Env) -> Result<Value, EvalFail>
    requires functions { AllCanRun functions.now }
    requires fits { FitsAlone (meaning e.now) (formals_in functions.now) }
    ensures { ValueIs result e.now functions.now env.now }
{
    match alone(alloc, e, functions.as_slice(), env) {
        Ok(v) => Ok(of_bits(alloc, &e.of, &v)?),
        Err(halt) => Err(fail_of(halt, e.spot.at)),
    }
}

/// The number of an expression of at most 64 bits by its own sign, or none where a bit of its value is x or z. It fails as `value`
/// does.
#[tactic(auto, using(crate::proofs::Valuing::longs))]
pub fn number(
    alloc: Global,
    e: &Expr,
    functions: &Functions,
    env: &Env,
) -> Result<Option<i128>, EvalFail>
    requires functions { AllCanRun functions.now }
    requires fits { FitsAlone (meaning e.now) (formals_in functions.now) }
    requires short { width_of e.now.of ≤ 64 }
    ensures { NumberIs result e.now functions.now env.now }
{
    match alone(alloc, e, functions.as_slice(), env) {
        Ok(v) => Ok(number_if_known(&v, own_sign(e))),
        Err(halt) => Err(fail_of(halt, e.spot.at)),
    }
}

/// The number of an expression by its own sign. `Range`, at its first token, exactly where it has a value of which a bit is x or
/// z or whose number is below `low` or above `high`; else it fails as `value` does.
pub fn size(
    alloc: Global,
    e: &Expr,
    functions: &Functions,
    env: &Env,
    low: i64,
    high: i64,
) -> Result<i64, SizeFail>
    requires functions { AllCanRun functions.now }
    requires fits { FitsAlone (meaning e.now) (formals_in functions.now) }
    ensures { SizeIs result e.now functions.now env.now low high }
{
    match alone(alloc, e, functions.as_slice(), env) {
        Ok(v) => match number_within(&v, own_sign(e), low, high) {
            Some(n) => Ok(n),
            None => Err(SizeFail::Range { at: e.spot.at }),
        },
        Err(halt) => Err(SizeFail::Eval(fail_of(halt, e.spot.at))),
    }
}
