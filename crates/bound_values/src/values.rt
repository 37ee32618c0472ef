//! The values of constants, and whether they take too long.

ghost use Rattle.std.specs.Prelude.{◌≡◌};
ghost use Rattle.sv_types.specs.Expressions.{meaning};
ghost use Rattle.sv_types.specs.Functions.{callees_within};
ghost use Rattle.eval_parts.specs.Limits.{Fits};
ghost use Rattle.eval_forms.specs.Callees.{formals_in};
ghost use Rattle.eval_exprs.specs.Calls.{CalledGives};
ghost use Rattle.eval_runs.specs.Functions.{AllCanRun};
ghost use Rattle.bound_values.specs.Values.{ended_of, ValuedGives};

use b4_core::Vec4;
use eval_exprs::{Call, Called, Held, Scope, bits};
use eval_parts::Halt;
use eval_runs::run_call;
use expr_flows::Known;
use std::alloc::{AllocError, Global};
use sv_types::Expr;

// A value, unless its run stopped.
fn ended(value: Result<Vec4, Halt>) -> Result<Option<Vec4>, AllocError>
    ensures { result ≡ ended_of value }
{
    match value {
        Ok(v) => Ok(Some(v)),
        Err(Halt::Memory) => Err(AllocError),
        Err(Halt::NotHeld(_)) => Ok(None),
        Err(Halt::Turns) => Ok(None),
    }
}

/// The value of an expression at a width and a sign, by what is known. None where it takes over 65,536 turns of a loop or 2^20
/// statements, or reads a signal.
pub fn value_at(
    alloc: Global,
    known: Known<'_>,
    e: &Expr,
    width: u32,
    signed: bool,
) -> Result<Option<Vec4>, AllocError>
    requires functions { AllCanRun known.functions.now }
    requires fits { Fits (meaning e.now) (formals_in known.functions.now) width }
    ensures { ValuedGives result known.entry e.now width signed }
{
    let functions = known.functions;
    let depth = functions.len();
    let calls = |call: Call| -> Result<Called, Halt>
        requires { AllCanRun functions.now }
        ensures { CalledGives result (callees_within depth functions.entry.now call.function) call }
    { run_call(alloc, functions, depth, call) };
    let held = Held {
        signals: &[],
        locals: known.locals,
        scope: Scope { functions, depth },
    };
    let mut budget = Some(1048576);
    ended(bits(alloc, &calls, held, e, width, signed, &mut budget))
}
