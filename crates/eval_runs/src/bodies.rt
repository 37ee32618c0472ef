//! Bodies of functions and tasks, which see no signals and no locals but their own (IEEE 1800-2017 clauses 13.3 to 13.5).

ghost use Rattle.std.specs.Prelude.{◌≡◌, ◌≤◌, [], map, OnOk, IfOk};
ghost use Rattle.sv_types.specs.Layouts.{layout, width_of, default_bits};
ghost use Rattle.sv_types.specs.Surroundings.{Parameter};
ghost use Rattle.sv_types.specs.Functions.{parameter, bound, callee_of, not_run as never_run};
ghost use Rattle.eval_parts.specs.Targets.{AllNarrow};
ghost use Rattle.eval_exprs.specs.EvalForms.{FunctionFits};
ghost use Rattle.eval_exprs.specs.Calls.{CallsRun, CalledGives};
ghost use Rattle.eval_exprs.specs.Held.{callees_in, formals as formals_in};
ghost use Rattle.eval_stmts.specs.Environments.{Written};
ghost use Rattle.eval_runs.specs.Functions.{CanRun, final_in, finals_in};

use crate::statements::run;
use b4_core::Vec4;
use eval_exprs::{Call, Called, Scope, Vectors};
use eval_parts::{Found, Halt, Root, entire, read};
use eval_stmts::{Env, default_bits_of, write_whole};
use std::alloc::{AllocError, Global};
use sv_types::{Formal, Function, SvType, store, width};

// What a body starts in.
fn empty(alloc: Global, left: Option<u64>) -> Env
    ensures signals { result.signals.items ≡ [] }
    ensures locals { result.locals.items ≡ [] }
    ensures pending { result.pending.items ≡ [] }
    ensures budget { result.budget ≡ left }
{
    Env {
        signals: Vec::new(alloc),
        locals: Vec::new(alloc),
        pending: Vec::new(alloc),
        budget: left,
    }
}

// The formals take what is passed to them, as far as there are both.
fn bind(alloc: Global, formals: &[Formal], passed: &[Vec4], env: &mut Env) -> Result<(), AllocError>
    requires { AllNarrow formals.now }
    ensures { OnOk result (Written env.old env.new (bound (map parameter formals.now) passed.now)) }
{
    let count = formals.len().min(passed.len());
    for i in 0..count {
        let local = &formals[i].local;
        write_whole(alloc, local.number, &local.of, &passed[i], env)?;
    }
    Ok(())
}

// What a local holds, by its type.
fn last_of(alloc: Global, number: u32, of: &SvType, env: &Env) -> Result<Vec4, AllocError>
    requires { width_of of.now ≤ 4194304 }
    ensures { IfOk result (λ v. v ≡ final_in env.now number (layout of.now).two_state) }
{
    let found = Found {
        root: Root::Local(number),
        window: entire(width(of)),
    };
    let bits = read(
        alloc,
        &found,
        env.signals.as_slice(),
        env.locals.as_slice(),
        width(of),
    )?;
    store(alloc, of, &bits)
}

// What formals hold.
fn all_last(alloc: Global, formals: &[Formal], env: &Env) -> Result<Vectors, AllocError>
    requires { AllNarrow formals.now }
    ensures { IfOk result (λ vs. vs ≡ finals_in env.now (map parameter formals.now)) }
{
    let mut finals = Vec::with_capacity(alloc, formals.len())?;
    for formal in formals {
        finals.push(last_of(alloc, formal.local.number, &formal.local.of, env)?)?;
    }
    Ok(Vectors::from_vec(finals))
}

/// Runs a function or task for a call, where `calls` runs those that its body calls.
pub fn run_body<C: Fn(Call) -> Result<Called, Halt>>(
    alloc: Global,
    calls: &C,
    scope: Scope<'_>,
    f: &Function,
    call: &Call,
) -> Result<Called, Halt>
    requires calls { CallsRun (C.IsAlwaysCallable calls.now) (C.post calls.now) scope }
    requires fits { CanRun f.now (formals_in scope) }
    ensures { CalledGives result (callee_of (callees_in scope.entry) f.now) call.now }
{
    let mut env = empty(alloc, call.left);
    bind(
        alloc,
        f.formals.as_slice(),
        call.passed.as_slice(),
        &mut env,
    )?;
    run(alloc, calls, scope, &f.body, &mut env)?;
    Ok(Called {
        result: last_of(alloc, 0, &f.of, &env)?,
        finals: all_last(alloc, f.formals.as_slice(), &env)?,
        left: env.budget,
    })
}

// The defaults of formals.
fn defaults(alloc: Global, formals: &[Formal]) -> Result<Vectors, AllocError>
    requires { AllNarrow formals.now }
    ensures { IfOk result (λ vs. vs ≡ map (λ (p : Parameter). default_bits p.two_state) (map parameter formals.now)) }
{
    let mut finals = Vec::with_capacity(alloc, formals.len())?;
    for formal in formals {
        finals.push(default_bits_of(alloc, &formal.local.of)?)?;
    }
    Ok(Vectors::from_vec(finals))
}

/// What a function or task gives where calls go no deeper.
pub fn not_run(alloc: Global, f: &Function, call: &Call) -> Result<Called, AllocError>
    requires { FunctionFits f.now }
    ensures { IfOk result (λ called. CalledGives (Ok called) (never_run f.now) call.now) }
{
    Ok(Called {
        result: default_bits_of(alloc, &f.of)?,
        finals: defaults(alloc, f.formals.as_slice())?,
        left: call.left,
    })
}
