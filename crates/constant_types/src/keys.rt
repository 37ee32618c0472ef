//! Constant indices before the items of patterns (IEEE 1800-2017 clause 10.9.1).

ghost use Rattle.std.specs.Prelude.{◌≡◌, ◌≤◌, IfOk};
ghost use Rattle.sv_types.specs.Expressions.{meaning};
ghost use Rattle.sv_types.specs.Layouts.{width_of};
ghost use Rattle.const_eval.specs.EvalForms.{formals_in};
ghost use Rattle.eval_parts.specs.Limits.{FitsAlone};
ghost use Rattle.const_eval.specs.EvalRuns.{AllCanRun};
ghost use Rattle.expr_type.specs.Answers.{Gives, source};
ghost use Rattle.expr_type.specs.Expressions as rule;
ghost use Rattle.expr_type.specs.Uses.{stream_marks};
ghost use Rattle.constant_types.specs.Indices.{key_rules, known_key};

use crate::exprs::uses_of;
use crate::marks::reaches;
use crate::numbers::{halt_for, nothing_held};
use const_eval::{SizeFail, number};
use eval_parts::own_width;
use expr_type::{Halt, Source, Valued};
use std::alloc::Global;
use sv_types::{Expr, Functions};
use type_kinds::is_unpacked;

// The most bits of an index.
const MOST_OF_INDEX: u32 = 64;

// How many bits a constant has.
#[tactic(auto, using(crate::proofs::Indices::widths))]
fn constant_width(e: &Expr, functions: &Functions) -> u32
    requires { FitsAlone (meaning e.now) (formals_in functions.now) }
    ensures { result ≡ width_of e.now.of }
{
    let _known = functions;
    own_width(e)
}

// The rules on what stands in a constant index.
fn key_rules(
    alloc: Global,
    text: Source<'_>,
    v: &Valued,
    functions: &Functions,
    marks: &[bool],
) -> Result<(), Halt>
    requires marks { marks.now ≡ stream_marks functions.now }
    requires fits { FitsAlone (meaning v.now.expr) (formals_in functions.now) }
    ensures value { Gives result (key_rules (source text.entry) v.now functions.now) }
    ensures short { IfOk result (λ u. width_of v.now.expr.of ≤ 64) }
{
    let uses = uses_of(alloc, &v.expr)?;
    if uses.names {
        return Err(Halt::Breaks {
            at: v.first,
            rule: 406,
        });
    }
    if is_unpacked(&v.expr.of) {
        return Err(Halt::Breaks {
            at: v.first,
            rule: 508,
        });
    }
    if constant_width(&v.expr, functions) > MOST_OF_INDEX {
        return Err(Halt::Breaks {
            at: v.first,
            rule: 507,
        });
    }
    if reaches(marks, &uses) {
        return Err(Halt::Breaks {
            at: v.first,
            rule: 512,
        });
    }
    Ok(())
}

// The number of a constant index, valued within its limits (E608).
#[tactic(auto, using(crate::proofs::Indices::numbers))]
fn known_key(
    alloc: Global,
    text: Source<'_>,
    first: u32,
    e: &Expr,
    functions: &Functions,
) -> Result<Option<i128>, Halt>
    requires functions { AllCanRun functions.now }
    requires fits { FitsAlone (meaning e.now) (formals_in functions.now) }
    requires short { width_of e.now.of ≤ 64 }
    ensures { Gives result (known_key (source text.entry) first functions.now e.now) }
{
    let env = nothing_held(alloc);
    match number(alloc, e, functions, &env) {
        Ok(n) => Ok(n),
        Err(fail) => Err(halt_for(first, SizeFail::Eval(fail))),
    }
}

/// The number of a constant index, with the functions that are known and whether each holds a stream, or none where a bit of it is x
/// or z. It breaks, at its first token, E406 where it names a signal or a local, E508 where it is unpacked, E507 where it has more than
/// 64 bits, E512 where a stream stands in it or in a function that it calls, and E608 where a loop makes more than 65,536 turns or
/// more than 2^20 statements run.
#[tactic(auto, using(crate::proofs::Indices::keys))]
pub fn key_number(
    alloc: Global,
    text: Source<'_>,
    v: &Valued,
    functions: &Functions,
    marks: &[bool],
) -> Result<Option<i128>, Halt>
    requires functions { AllCanRun functions.now }
    requires marks { marks.now ≡ stream_marks functions.now }
    requires fits { FitsAlone (meaning v.now.expr) (formals_in functions.now) }
    ensures { Gives result (rule.is_key (source text.entry) v.now functions.now) }
{
    match key_rules(alloc, text, v, functions, marks) {
        Err(halt) => Err(halt),
        Ok(()) => known_key(alloc, text, v.first, &v.expr, functions),
    }
}
