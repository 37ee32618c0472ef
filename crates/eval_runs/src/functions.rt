//! Functions and tasks that call one another (IEEE 1800-2017 clause 13).

ghost use Rattle.std.specs.Prelude.{◌≡◌, [], length, ◌≤◌, map};
ghost use Rattle.sv_types.specs.Functions.{callees_within, absent};
ghost use Rattle.eval_exprs.specs.Calls.{CalledGives, Ends};
ghost use Rattle.eval_runs.specs.Functions.{AllCanRun};

use crate::bodies::{not_run, run_body};
use b4_core::Vec4;
use eval_exprs::{Call, Called, Scope, Vectors};
use eval_parts::Halt;
use std::alloc::Global;
use sv_types::Function;

// What a call gives that names no function.
fn nothing(alloc: Global, left: Option<u64>) -> Called
    ensures result { result.result ≡ [] }
    ensures finals { result.finals ≡ [] }
    ensures left { result.left ≡ left }
{
    Called {
        result: Vec4::from_vec(Vec::new(alloc)),
        finals: Vectors::from_vec(Vec::new(alloc)),
        left,
    }
}

/// Runs a call of a function or task, in which calls may lie one in another to a depth.
pub fn run_call(
    alloc: Global,
    functions: &[Function],
    depth: usize,
    call: Call,
) -> Result<Called, Halt>
    requires { AllCanRun functions.now }
    ensures { CalledGives result (callees_within depth functions.now call.function) call }
{
    if call.function as usize >= functions.len() {
        return Ok(nothing(alloc, call.left));
    }
    let f = &functions[call.function as usize];
    if depth == 0 {
        return Ok(not_run(alloc, f, &call)?);
    }
    let below = depth - 1;
    let calls = |inner: Call| -> Result<Called, Halt>
        requires { AllCanRun functions.now }
        ensures { CalledGives result (callees_within below functions.entry.now inner.function) inner }
    { run_call(alloc, functions, below, inner) };
    let scope = Scope {
        functions,
        depth: below,
    };
    run_body(alloc, &calls, scope, f, &call)
}
