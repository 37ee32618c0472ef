//! Which functions of a design are called, by processes or by functions that are called.
#![tactic(auto)]

ghost use Rattle.std.specs.Prelude.{◌≡◌, map, flat_map, IfOk};
ghost use Rattle.sv_types.specs.declared.design.Design.{Design};
ghost use Rattle.call_reach.specs.Called as spec;
ghost use Rattle.call_reach.specs.Called.{AreCalled};

use body_mentions::{Mentioned, Numbers, mentions_of};
use reach_marks::{Marks, reached};
use std::alloc::{AllocError, Global};
use sv_types::{Function, Process, Stmt};

// The places of the functions that a statement calls.
fn calls_of(alloc: Global, stmt: &Stmt) -> Result<Numbers, AllocError>
    ensures { IfOk result (λ r. r ≡ spec.calls_of stmt.now) }
{
    let Mentioned { calls, .. } = mentions_of(alloc, stmt)?;
    Ok(calls)
}

// Those that all processes call.
fn process_calls(alloc: Global, processes: &[Process]) -> Result<Numbers, AllocError>
    ensures { IfOk result (λ r. r ≡ flat_map spec.process_calls processes.now) }
{
    let mut all = Numbers::new(alloc);
    for p in processes {
        let calls = calls_of(alloc, &p.body)?;
        all.append(calls)?;
    }
    Ok(all)
}

// Those that each function calls.
fn function_calls(alloc: Global, functions: &[Function]) -> Result<Vec<Numbers>, AllocError>
    ensures { IfOk result (λ r. r.items ≡ map spec.function_calls functions.now) }
{
    let mut all = Vec::new(alloc);
    for f in functions {
        let calls = calls_of(alloc, &f.body)?;
        all.push(calls)?;
    }
    Ok(all)
}

/// Of each function whether a process calls it, itself or through other functions (IEEE 1800-2017 clause 13.4). The processes and
/// functions are those of a design. In steps linear in its statements and expressions; no clause says so.
pub fn called(
    alloc: Global,
    processes: &[Process],
    functions: &[Function],
) -> Result<Marks, AllocError>
    ensures { IfOk result (λ r. (d : Design) → processes.now ≡ d.processes → functions.now ≡ d.functions → AreCalled d r) }
{
    let roots = process_calls(alloc, processes)?;
    let next = function_calls(alloc, functions)?;
    reached(alloc, roots.as_slice(), &next)
}
