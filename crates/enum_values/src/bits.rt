//! The bits of constants that are written for names of enums (IEEE 1800-2017 clauses 6.19 and 11.2.1).

ghost use Rattle.std.specs.Prelude.{◌≡◌, length, IfOk};
ghost use Rattle.sv_types.specs.Expressions.{meaning};
ghost use Rattle.sv_types.specs.Layouts.{width_of};
ghost use Rattle.eval_parts.specs.Limits.{FitsAlone};
ghost use Rattle.eval_forms.specs.Callees.{formals_in};
ghost use Rattle.eval_exprs.specs.Calls.{CalledGives};
ghost use Rattle.sv_types.specs.Functions.{callees_within};
ghost use Rattle.eval_runs.specs.Functions.{AllCanRun};
ghost use Rattle.const_eval.specs.Values.{AloneGives};
ghost use Rattle.expr_type.specs.Answers.{Gives, source};
ghost use Rattle.expr_type.specs.Uses.{stream_marks};
ghost use Rattle.constant_types.specs.Known.{HasNoSlots};
ghost use Rattle.enum_values.specs.Constants.{HasBits, halt_for, name_rules};

use crate::marks::reaches;
use b4_core::Vec4;
use const_eval::Env;
use constant_types::uses_of;
use eval_exprs::{Call, Called, Held, Scope, bits};
use eval_parts::{own_sign, own_width};
use eval_runs::run_call;
use expr_type::{Halt, Source, Valued};
use std::alloc::Global;
use sv_types::{Expr, Function, Functions};
use type_kinds::is_unpacked;

// How many statements the value of a constant may run.
const BUDGET: u64 = 1048576;

// What constants are valued in: no signal and no local holds anything.
fn nothing_held(alloc: Global) -> Env
    ensures { HasNoSlots result }
{
    Env {
        signals: Vec::new(alloc),
        locals: Vec::new(alloc),
        pending: Vec::new(alloc),
        budget: Some(BUDGET),
    }
}

// What stops at the first token of a constant that has no value.
fn halt_for(first: u32, halt: eval_parts::Halt) -> Halt
    ensures { result ≡ halt_for first halt }
{
    match halt {
        eval_parts::Halt::Memory => Halt::Memory,
        eval_parts::Halt::NotHeld(_) => Halt::Breaks {
            at: first,
            rule: 608,
        },
        eval_parts::Halt::Turns => Halt::Breaks {
            at: first,
            rule: 608,
        },
    }
}

// The bits of an expression alone.
fn alone(
    alloc: Global,
    e: &Expr,
    functions: &[Function],
    env: &Env,
) -> Result<Vec4, eval_parts::Halt>
    requires functions { AllCanRun functions.now }
    requires fits { FitsAlone (meaning e.now) (formals_in functions.now) }
    ensures { AloneGives result e.now functions.now env.now }
{
    let depth = functions.len();
    let calls = |call: Call| -> Result<Called, eval_parts::Halt>
        requires { AllCanRun functions.now }
        ensures { CalledGives result (callees_within depth functions.entry.now call.function) call }
    { run_call(alloc, functions, depth, call) };
    let held = Held {
        signals: env.signals.as_slice(),
        locals: env.locals.as_slice(),
        scope: Scope { functions, depth },
    };
    let mut budget = env.budget;
    bits(
        alloc,
        &calls,
        held,
        e,
        own_width(e),
        own_sign(e),
        &mut budget,
    )
}

// The rules on what stands in a constant that is given to the base of an enum.
fn name_rules(
    alloc: Global,
    text: Source<'_>,
    v: &Valued,
    functions: &Functions,
    marks: &[bool],
) -> Result<(), Halt>
    requires { marks.now ≡ stream_marks functions.now }
    ensures { Gives result (name_rules (source text.entry) v.now functions.now) }
{
    let uses = uses_of(alloc, &v.expr)?;
    if uses.names {
        return Err(Halt::Breaks {
            at: v.first,
            rule: 406,
        });
    }
    if is_unpacked(&v.expr.of) {
        return Err(Halt::Breaks {
            at: v.first,
            rule: 501,
        });
    }
    if reaches(marks, &uses) {
        return Err(Halt::Breaks {
            at: v.first,
            rule: 512,
        });
    }
    Ok(())
}

/// The bits of a constant that is given to the base of an enum, with the functions that are known and whether each holds a stream. It breaks, at its first token, E406
/// where it names a signal or a local, E501 where it is unpacked, E512 where a stream stands in it or in a function that it calls,
/// and E608 where a loop makes more than 65,536 turns or more than 2^20 statements run.
#[tactic(auto, using(crate::proofs::Constants::constants))]
pub fn constant_bits(
    alloc: Global,
    text: Source<'_>,
    v: &Valued,
    functions: &Functions,
    marks: &[bool],
) -> Result<Vec4, Halt>
    requires functions { AllCanRun functions.now }
    requires marks { marks.now ≡ stream_marks functions.now }
    requires fits { FitsAlone (meaning v.now.expr) (formals_in functions.now) }
    ensures value { HasBits result (source text.entry) v.now functions.now }
    ensures long { IfOk result (λ bits. length bits ≡ width_of v.now.expr.of) }
{
    match name_rules(alloc, text, v, functions, marks) {
        Err(halt) => Err(halt),
        Ok(()) => {
            let env = nothing_held(alloc);
            match alone(alloc, &v.expr, functions.as_slice(), &env) {
                Ok(bits) => Ok(bits),
                Err(halt) => Err(halt_for(v.first, halt)),
            }
        }
    }
}
