//! Constant numbers (IEEE 1800-2017 clauses 11.2.1 and 11.5.1).

ghost use Rattle.std.specs.Prelude.{◌≡◌};
ghost use Rattle.sv_types.specs.Expressions.{meaning};
ghost use Rattle.const_eval.specs.EvalForms.{formals_in};
ghost use Rattle.eval_parts.specs.Limits.{FitsAlone};
ghost use Rattle.const_eval.specs.EvalRuns.{AllCanRun};
ghost use Rattle.expr_type.specs.Answers.{Gives, source};
ghost use Rattle.expr_type.specs.Operands as rule;
ghost use Rattle.expr_type.specs.Uses.{stream_marks};
ghost use Rattle.constant_types.specs.Known.{known_number, constant_rules, halt_for, HasNoSlots};

use crate::exprs::uses_of;
use crate::marks::reaches;
use const_eval::{Env, EvalFail, SizeFail, size};
use expr_type::{Halt, Number, Source, Valued};
use std::alloc::Global;
use sv_types::{Expr, Functions};
use type_kinds::is_unpacked;

// How many statements the value of a constant may run.
const BUDGET: u64 = 1048576;

/// What constants are valued in: no signal and no local holds anything.
pub(crate) fn nothing_held(alloc: Global) -> Env
    ensures { HasNoSlots result }
{
    Env {
        signals: Vec::new(alloc),
        locals: Vec::new(alloc),
        pending: Vec::new(alloc),
        budget: Some(BUDGET),
    }
}

/// What stops at the first token of a constant that has no number.
pub(crate) fn halt_for(first: u32, fail: SizeFail) -> Halt
    ensures { result ≡ halt_for first fail }
{
    match fail {
        SizeFail::Range { .. } => Halt::Breaks {
            at: first,
            rule: 411,
        },
        SizeFail::Eval(EvalFail::Memory) => Halt::Memory,
        SizeFail::Eval(EvalFail::NotConstant { .. }) => Halt::Breaks {
            at: first,
            rule: 608,
        },
        SizeFail::Eval(EvalFail::Turns { .. }) => Halt::Breaks {
            at: first,
            rule: 608,
        },
    }
}

// The number of a constant in a range (E411), valued within its limits (E608).
fn known_number(
    alloc: Global,
    text: Source<'_>,
    first: u32,
    low: i64,
    high: i64,
    e: &Expr,
    functions: &Functions,
) -> Result<Number, Halt>
    requires functions { AllCanRun functions.now }
    requires fits { FitsAlone (meaning e.now) (formals_in functions.now) }
    ensures { Gives result (known_number (source text.entry) first low high functions.now e.now) }
{
    let env = nothing_held(alloc);
    match size(alloc, e, functions, &env, low, high) {
        Ok(number) => Ok(Number { first, number }),
        Err(fail) => Err(halt_for(first, fail)),
    }
}

// The rules on what stands in a constant of which the bits are wanted.
fn constant_rules(
    alloc: Global,
    text: Source<'_>,
    v: &Valued,
    functions: &Functions,
    marks: &[bool],
) -> Result<(), Halt>
    requires { marks.now ≡ stream_marks functions.now }
    ensures { Gives result (constant_rules (source text.entry) v.now functions.now) }
{
    let uses = uses_of(alloc, &v.expr)?;
    if uses.names {
        return Err(Halt::Breaks {
            at: v.first,
            rule: 406,
        });
    }
    if is_unpacked(&v.expr.of) {
        return Err(Halt::Breaks {
            at: v.first,
            rule: 508,
        });
    }
    if reaches(marks, &uses) {
        return Err(Halt::Breaks {
            at: v.first,
            rule: 512,
        });
    }
    Ok(())
}

/// The number of a constant, from `low` to `high`, with the functions that are known and whether each holds a stream. It breaks, at
/// its first token, E406 where it names a signal or a local, E508 where it is unpacked, E512 where a stream stands in it or in a
/// function that it calls, E608 where a loop makes more than 65,536 turns or more than 2^20 statements run, and E411 where a bit of
/// it is x or z or it is out of range.
pub fn number_in(
    alloc: Global,
    text: Source<'_>,
    low: i64,
    high: i64,
    v: &Valued,
    functions: &Functions,
    marks: &[bool],
) -> Result<Number, Halt>
    requires functions { AllCanRun functions.now }
    requires marks { marks.now ≡ stream_marks functions.now }
    requires fits { FitsAlone (meaning v.now.expr) (formals_in functions.now) }
    ensures { Gives result (rule.is_number_in (source text.entry) low high v.now functions.now) }
{
    match constant_rules(alloc, text, v, functions, marks) {
        Err(halt) => Err(halt),
        Ok(()) => known_number(alloc, text, v.first, low, high, &v.expr, functions),
    }
}
