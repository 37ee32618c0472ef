//! What is known before a run, and the values of constants.

ghost use Rattle.std.specs.Prelude.{◌≡◌};
ghost use Rattle.sv_types.specs.Expressions.{meaning};
ghost use Rattle.sv_types.specs.Functions.{callees_within};
ghost use Rattle.sv_types.specs.Meanings.{root_sure};
ghost use Rattle.sv_types.specs.Flows.{covers};
ghost use Rattle.eval_parts.specs.Limits.{Fits, FitsAlone};
ghost use Rattle.eval_forms.specs.Callees.{formals_in};
ghost use Rattle.eval_exprs.specs.Calls.{CalledGives};
ghost use Rattle.eval_runs.specs.Functions.{AllCanRun};
ghost use Rattle.expr_flows.specs.Known.{sight, bits_of_variable, sure_of, ValueGives, AloneGives};

use crate::fails::{FlowFail, fail_of};
use b4_core::Vec4;
use eval_exprs::{Call, Called, Held, Scope, bits};
use eval_parts::{Halt, own_sign, own_width};
use eval_runs::run_call;
use std::alloc::Global;
use sv_types::{Expr, Function};

/// A variable of a loop whose value is known.
#[derive(Clone, Copy)]
pub struct Variable {
    /// The number of its local.
    pub local: u32,
    /// How many bits it has.
    pub width: u32,
}

/// What is known before a run: the functions, and the variables of the loops around.
#[derive(Clone, Copy)]
pub struct Known<'a> {
    /// The functions by place.
    pub functions: &'a [Function],
    /// What locals hold, by number, their bits least first.
    pub locals: &'a [Option<Vec4>],
    /// Those whose values are known.
    pub variables: &'a [Variable],
}

// Whether the signal or local with a number is a variable that has a bit.
fn is_variable(v: Variable, number: u64) -> bool
    ensures { result ≡ covers (bits_of_variable v) (record { signal = number; bit = 0 }) }
{
    4294967296 + v.local as u64 == number && 0 < v.width
}

// Whether it is one of some variables.
fn is_known(variables: &[Variable], number: u64) -> bool
    ensures { result ≡ sure_of variables.now (record { signal = number; bit = 0 }) }
{
    for v in variables {
        if is_variable(*v, number) {
            return true;
        }
    }
    false
}

/// Whether all that a path stands on is known, by the number of its signal or local. What stands on a value is.
pub fn is_sure(known: Known<'_>, root: Option<u64>) -> bool
    ensures { result ≡ root_sure root (sight known.entry) }
{
    match root {
        None => true,
        Some(number) => is_known(known.variables, number),
    }
}

/// The value of an expression at a width and a sign, by what is known. `TooLong`, at its first token, where it takes over 65,536
/// turns of a loop or 2^20 statements, or reads a signal.
pub fn value_at(
    alloc: Global,
    known: Known<'_>,
    e: &Expr,
    width: u32,
    signed: bool,
) -> Result<Vec4, FlowFail>
    requires functions { AllCanRun known.functions.now }
    requires fits { Fits (meaning e.now) (formals_in known.functions.now) width }
    ensures { ValueGives result known.entry e.now width signed }
{
    let functions = known.functions;
    let depth = functions.len();
    let calls = |call: Call| -> Result<Called, Halt>
        requires { AllCanRun functions.now }
        ensures { CalledGives result (callees_within depth functions.entry.now call.function) call }
    { run_call(alloc, functions, depth, call) };
    let held = Held {
        signals: &[],
        locals: known.locals,
        scope: Scope { functions, depth },
    };
    let mut budget = Some(1048576);
    match bits(alloc, &calls, held, e, width, signed, &mut budget) {
        Ok(v) => Ok(v),
        Err(halt) => Err(fail_of(halt, e.spot.at)),
    }
}

/// The value of an expression alone. It fails as `value_at` does.
pub fn value_of(alloc: Global, known: Known<'_>, e: &Expr) -> Result<Vec4, FlowFail>
    requires functions { AllCanRun known.functions.now }
    requires fits { FitsAlone (meaning e.now) (formals_in known.functions.now) }
    ensures { AloneGives result known.entry e.now }
{
    value_at(alloc, known, e, own_width(e), own_sign(e))
}
