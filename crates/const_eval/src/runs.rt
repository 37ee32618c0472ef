//! Runs of functions and statements (IEEE 1800-2017 clauses 12 and 13).

ghost use Rattle.std.specs.Prelude.{◌≡◌, length, map, IfOk};
ghost use Rattle.sv_types.specs.Functions.{callees_within};
ghost use Rattle.sv_types.specs.Values.{bits};
ghost use Rattle.eval_parts.specs.Steps.{is_held};
ghost use Rattle.eval_forms.specs.Callees.{formals_in};
ghost use Rattle.eval_exprs.specs.Calls.{CalledGives};
ghost use Rattle.eval_stmts.specs.Limits.{StmtFits};
ghost use Rattle.eval_runs.specs.Functions.{AllCanRun, CanRun};
ghost use Rattle.const_eval.specs.Values.{FunctionGives, FunctionIs, StmtIs, StmtRuns};

use crate::fails::{EvalFail, fail_of};
use b4_core::Vec4;
use eval_exprs::{Call, Called, Scope, Vectors};
use eval_parts::Halt;
use eval_runs::{run, run_body, run_call};
use eval_stmts::Env;
use std::alloc::{AllocError, Global};
use sv_types::{Formal, Function, Functions, Outcome, Stmt, Value, Values, bits_of, of_bits};

// The bits of arguments, one for each formal.
fn passed_bits(alloc: Global, formals: &[Formal], args: &[Value]) -> Result<Vectors, AllocError>
    requires { length args.now ≡ length formals.now }
    ensures { IfOk result (λ vs. vs ≡ map bits args.now) }
{
    let mut passed = Vec::with_capacity(alloc, args.len())?;
    for i in 0..args.len() {
        passed.push(bits_of(alloc, &formals[i].local.of, &args[i])?)?;
    }
    Ok(Vectors::from_vec(passed))
}

// The bits of a function's result.
fn result_bits(
    alloc: Global,
    f: &Function,
    passed: Vectors,
    functions: &[Function],
    left: Option<u64>,
) -> Result<Vec4, Halt>
    requires functions { AllCanRun functions.now }
    requires fits { CanRun f.now (formals_in functions.now) }
    ensures { FunctionGives result f.now functions.now passed left }
{
    let depth = functions.len();
    let calls = |call: Call| -> Result<Called, Halt>
        requires { AllCanRun functions.now }
        ensures { CalledGives result (callees_within depth functions.entry.now call.function) call }
    { run_call(alloc, functions, depth, call) };
    let call = Call {
        function: 0,
        passed,
        left,
    };
    let Called { result, .. } = run_body(alloc, &calls, Scope { functions, depth }, f, &call)?;
    Ok(result)
}

/// The result of a function for the values of its formals (IEEE 1800-2017 clause 13.4). It fails as `value` does, `Turns` at the
/// function's token. A body sees no signals.
pub fn run_function(
    alloc: Global,
    f: &Function,
    args: &Values,
    functions: &Functions,
    env: &Env,
) -> Result<Value, EvalFail>
    requires functions { AllCanRun functions.now }
    requires fits { CanRun f.now (formals_in functions.now) }
    requires args { length args.now ≡ length f.now.formals }
    ensures { FunctionIs result f.now args.now functions.now env.now }
{
    let passed = passed_bits(alloc, f.formals.as_slice(), args.as_slice())?;
    match result_bits(alloc, f, passed, functions.as_slice(), env.budget) {
        Ok(v) => Ok(of_bits(alloc, &f.of, &v)?),
        Err(halt) => Err(fail_of(halt, f.spot.at)),
    }
}

// Runs a statement.
fn run_in(alloc: Global, s: &Stmt, functions: &[Function], env: &mut Env) -> Result<Outcome, Halt>
    requires functions { AllCanRun functions.now }
    requires fits { StmtFits s.now (formals_in functions.now) (is_held env.old.signals.items) }
    ensures { StmtRuns result s.now functions.now env.old env.new }
{
    let depth = functions.len();
    let calls = |call: Call| -> Result<Called, Halt>
        requires { AllCanRun functions.now }
        ensures { CalledGives result (callees_within depth functions.entry.now call.function) call }
    { run_call(alloc, functions, depth, call) };
    run(alloc, &calls, Scope { functions, depth }, s, env)
}

/// Runs a statement (IEEE 1800-2017 clause 12): blocking assignments change what signals and locals hold, and the updates of
/// nonblocking ones come behind those that are pending. It fails as `value` does, `Turns` at 0, and then leaves the environment
/// as it was when it stopped.
pub fn run_stmt(
    alloc: Global,
    s: &Stmt,
    functions: &Functions,
    env: &mut Env,
) -> Result<Outcome, EvalFail>
    requires functions { AllCanRun functions.now }
    requires fits { StmtFits s.now (formals_in functions.now) (is_held env.old.signals.items) }
    ensures { StmtIs result s.now functions.now env.old env.new }
{
    match run_in(alloc, s, functions.as_slice(), env) {
        Ok(outcome) => Ok(outcome),
        Err(halt) => Err(fail_of(halt, 0)),
    }
}
