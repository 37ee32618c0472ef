//! Valuing constants within their limits (E608).

ghost use Rattle.std.specs.Prelude.{◌≡◌, ◌≤◌};
ghost use Rattle.sv_types.specs.Expressions.{meaning};
ghost use Rattle.sv_types.specs.Functions.{callees_within};
ghost use Rattle.sv_types.specs.Layouts.{layout, width_of};
ghost use Rattle.sv_types.specs.Operators.{assigned_width};
ghost use Rattle.eval_parts.specs.Limits.{Fits, FitsAlone};
ghost use Rattle.eval_forms.specs.Callees.{formals_in};
ghost use Rattle.eval_exprs.specs.Calls.{CalledGives};
ghost use Rattle.eval_runs.specs.Functions.{AllCanRun};
ghost use Rattle.constant_types.specs.Known.{HasNoSlots};
ghost use Rattle.expr_type.specs.Answers.{Gives, source};
ghost use Rattle.stmt_laws.proofs.Values.{NoStream};
ghost use Rattle.constant_values.specs.Valuing.{BitsGive, fail_halt, run_halt, runs_on, valued};

use b4_core::Vec4;
use const_eval::{EvalFail, value};
use eval_exprs::{Call, Called, Scope};
use eval_runs::run_call;
use eval_stmts::{Env, assigned_in};
use expr_type::{Halt, Source};
use std::alloc::Global;
use sv_types::{Expr, Function, Functions, SvType, Value, of_bits};

// How many statements the value of a constant may run.
const BUDGET: u64 = 1_048_576;

// What constants are valued in: no signal and no local holds anything.
fn nothing_held(alloc: Global) -> Env
    ensures { HasNoSlots result }
{
    Env {
        signals: Vec::new(alloc),
        locals: Vec::new(alloc),
        pending: Vec::new(alloc),
        budget: Some(BUDGET),
    }
}

// What stops at the first token of a constant that has no value.
fn fail_halt(first: u32, fail: EvalFail) -> Halt
    ensures { result ≡ fail_halt first fail }
{
    match fail {
        EvalFail::Memory => Halt::Memory,
        EvalFail::NotConstant { .. } => Halt::Breaks {
            at: first,
            rule: 608,
        },
        EvalFail::Turns { .. } => Halt::Breaks {
            at: first,
            rule: 608,
        },
    }
}

fn run_halt(first: u32, halt: eval_parts::Halt) -> Halt
    ensures { result ≡ run_halt first halt }
{
    match halt {
        eval_parts::Halt::Memory => Halt::Memory,
        eval_parts::Halt::NotHeld(_) => Halt::Breaks {
            at: first,
            rule: 608,
        },
        eval_parts::Halt::Turns => Halt::Breaks {
            at: first,
            rule: 608,
        },
    }
}

/// That valuing a constant keeps its limits.
#[tactic(auto, using(crate::proofs::Running::runs))]
pub(crate) fn runs_on(
    alloc: Global,
    text: Source<'_>,
    first: u32,
    e: &Expr,
    functions: &Functions,
) -> Result<(), Halt>
    requires functions { AllCanRun functions.now }
    requires fits { FitsAlone (meaning e.now) (formals_in functions.now) }
    ensures { Gives result (runs_on (source text.entry) first functions.now e.now) }
{
    let env = nothing_held(alloc);
    match value(alloc, e, functions, &env) {
        Ok(v) => {
            drop(v);
            Ok(())
        }
        Err(fail) => Err(fail_halt(first, fail)),
    }
}

// The bits of what is given to a type.
fn bits_given(
    alloc: Global,
    t: &SvType,
    e: &Expr,
    functions: &[Function],
) -> Result<Vec4, eval_parts::Halt>
    requires functions { AllCanRun functions.now }
    requires narrow { width_of t.now ≤ 4194304 }
    requires fits { Fits (meaning e.now) (formals_in functions.now) (assigned_width (layout t.now).two_state (meaning e.now)) }
    ensures { BitsGive result t.now e.now functions.now }
{
    let depth = functions.len();
    let calls = |call: Call| -> Result<Called, eval_parts::Halt>
        requires { AllCanRun functions.now }
        ensures { CalledGives result (callees_within depth functions.entry.now call.function) call }
    { run_call(alloc, functions, depth, call) };
    let mut env = nothing_held(alloc);
    assigned_in(alloc, &calls, Scope { functions, depth }, t, e, &mut env)
}

/// The value of a constant as a type of at most 2^22 bits stores it, valued within its limits.
#[tactic(auto, using(crate::proofs::Running::values))]
pub(crate) fn valued(
    alloc: Global,
    text: Source<'_>,
    first: u32,
    t: &SvType,
    e: &Expr,
    functions: &Functions,
) -> Result<Value, Halt>
    requires functions { AllCanRun functions.now }
    requires narrow { width_of t.now ≤ 4194304 }
    requires fits { Fits (meaning e.now) (formals_in functions.now) (assigned_width (layout t.now).two_state (meaning e.now)) }
    requires plain { NoStream e.now }
    ensures { Gives result (valued (source text.entry) first functions.now t.now e.now) }
{
    match bits_given(alloc, t, e, functions.as_slice()) {
        Ok(bits) => Ok(of_bits(alloc, t, &bits)?),
        Err(halt) => Err(run_halt(first, halt)),
    }
}
