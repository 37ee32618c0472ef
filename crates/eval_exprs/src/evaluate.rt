//! The evaluation of expressions. Operands are valued from left to right, all of them, and the first thing that stops the run
//! ends it.

ghost use Rattle.std.specs.Prelude.{◌≡◌, ◌≤◌, false};
ghost use Rattle.sv_types.specs.declared.expression.Form.{out-Form};
ghost use Rattle.sv_types.specs.Layouts.{layout};
ghost use Rattle.sv_types.specs.Meanings.{wide};
ghost use Rattle.sv_types.specs.Expressions.{meaning};
ghost use Rattle.eval_parts.specs.Answers.{Gives};
ghost use Rattle.eval_parts.specs.Limits.{Fits, FitsAlone};
ghost use Rattle.eval_parts.specs.Places.{FindGives};
ghost use Rattle.eval_parts.specs.Steps.{IsStep, is_path};
ghost use Rattle.eval_forms.specs.Asked.{asked, form_asked, width_asked};
ghost use Rattle.eval_forms.specs.Kinds.{IsCallOf};
ghost use Rattle.eval_forms.specs.Repeats.{IsReady};
ghost use Rattle.eval_exprs.specs.Calls.{CallsRun};
ghost use Rattle.eval_exprs.specs.Held.{around, formals};
ghost use Rattle.eval_exprs.specs.Answers.{AnswerGives, AskedGive};

use crate::calls::{Call, Called, result_of};
use crate::held::{Held, read_path};
use b4_core::Vec4;
use eval_forms::{Ask, Operand, call_of, combine, operands};
use eval_parts::{
    Found, Halt, Root, Step, can_be_read, entire, extended, index_form, member_form, own_sign,
    own_width, part_form, slide_form, step_of, value_form,
};
use std::alloc::Global;
use sv_types::Expr;

/// The bits of an expression at a width and a sign, where `calls` runs the functions that it calls. A budget is the number of
/// statements that may still run, if there is a limit.
#[cycle(evaluate)]
pub fn bits<C: Fn(Call) -> Result<Called, Halt>>(
    alloc: Global,
    calls: &C,
    held: Held<'_>,
    e: &Expr,
    width: u32,
    signed: bool,
    budget: &mut Option<u64>,
) -> Result<Vec4, Halt>
    requires calls { CallsRun (C.IsAlwaysCallable calls.now) (C.post calls.now) held.scope }
    requires fits { Fits (meaning e.now) (formals held.scope) width }
    ensures { Gives result (meaning e.now) width signed (around held.entry) budget.old budget.new }
{
    match step_of(e) {
        Some(step) => {
            if !can_be_read(e, held.signals) {
                return Err(Halt::NotHeld(e.spot.at));
            }
            let found = follow(alloc, calls, held, e, step, budget)?;
            Ok(read_path(alloc, held, e, &found, width, signed)?)
        }
        None => form_bits(alloc, calls, held, e, width, signed, budget),
    }
}

// The bits of an expression that is no select path.
#[cycle(evaluate)]
fn form_bits<C: Fn(Call) -> Result<Called, Halt>>(
    alloc: Global,
    calls: &C,
    held: Held<'_>,
    e: &Expr,
    width: u32,
    signed: bool,
    budget: &mut Option<u64>,
) -> Result<Vec4, Halt>
    requires calls { CallsRun (C.IsAlwaysCallable calls.now) (C.post calls.now) held.scope }
    requires kind { is_path (out-Form e.now.form) ≡ false }
    requires fits { Fits (meaning e.now) (formals held.scope) width }
    ensures { Gives result (meaning e.now) width signed (around held.entry) budget.old budget.new }
{
    let called = call_of(e);
    let values = operand_bits(alloc, calls, held, e, called, width, signed, budget)?;
    match called {
        Some(function) => {
            let result = result_of(alloc, calls, held, e, function, &values, budget)?;
            Ok(extended(alloc, &result, width, signed)?)
        }
        None => Ok(combine(alloc, e, width, signed, &values)?),
    }
}

// What the operands of an expression answer, in order.
#[cycle(evaluate)]
fn operand_bits<C: Fn(Call) -> Result<Called, Halt>>(
    alloc: Global,
    calls: &C,
    held: Held<'_>,
    e: &Expr,
    called: Option<u32>,
    width: u32,
    signed: bool,
    budget: &mut Option<u64>,
) -> Result<Vec<Vec4>, Halt>
    requires calls { CallsRun (C.IsAlwaysCallable calls.now) (C.post calls.now) held.scope }
    requires kind { is_path (out-Form e.now.form) ≡ false }
    requires called { IsCallOf called e.now }
    requires fits { Fits (meaning e.now) (formals held.scope) width }
    ensures { AskedGive result (form_asked (layout e.now.of) (formals held.entry.scope) width signed (out-Form e.now.form)) (around held.entry) budget.old budget.new }
{
    let asks = operands(alloc, e, width, signed, held.scope.functions)?;
    let start = *budget;
    let mut values = Vec::with_capacity(alloc, asks.len())?;
    for operand in &asks {
        values.push(answer(alloc, calls, held, *operand, start, budget)?)?;
    }
    Ok(values)
}

// What an operand answers. What is asked again takes nothing of the budget: it runs on the one with which the whole began.
#[cycle(evaluate)]
fn answer<C: Fn(Call) -> Result<Called, Halt>>(
    alloc: Global,
    calls: &C,
    held: Held<'_>,
    operand: Operand<'_>,
    start: Option<u64>,
    budget: &mut Option<u64>,
) -> Result<Vec4, Halt>
    requires calls { CallsRun (C.IsAlwaysCallable calls.now) (C.post calls.now) held.scope }
    requires fits { Fits (meaning operand.of.now) (formals held.scope) (width_asked operand.ask (meaning operand.of.now)) }
    requires ready { IsReady operand.ask (meaning operand.of.now) (around held) start }
    ensures { AnswerGives result (asked operand.entry) (around held.entry) budget.old budget.new }
{
    match operand.ask {
        Ask::Bits(width, signed) => bits(alloc, calls, held, operand.of, width, signed, budget),
        Ask::Again(width, signed) => {
            let mut again = start;
            bits(alloc, calls, held, operand.of, width, signed, &mut again)
        }
        Ask::Place => {
            let (width, signed) = (own_width(operand.of), own_sign(operand.of));
            bits(alloc, calls, held, operand.of, width, signed, budget)
        }
    }
}

/// What an expression stands on, and which bits of that it names.
#[cycle(evaluate)]
pub fn find<C: Fn(Call) -> Result<Called, Halt>>(
    alloc: Global,
    calls: &C,
    held: Held<'_>,
    e: &Expr,
    budget: &mut Option<u64>,
) -> Result<Found, Halt>
    requires calls { CallsRun (C.IsAlwaysCallable calls.now) (C.post calls.now) held.scope }
    requires fits { FitsAlone (meaning e.now) (formals held.scope) }
    ensures { FindGives result (meaning e.now) (around held.entry) budget.old budget.new }
{
    match step_of(e) {
        Some(step) => follow(alloc, calls, held, e, step, budget),
        None => {
            let width = own_width(e);
            value_form(
                bits(alloc, calls, held, e, width, own_sign(e), budget),
                width,
            )
        }
    }
}

// The bits that a select path names, by its last step.
#[cycle(evaluate)]
fn follow<C: Fn(Call) -> Result<Called, Halt>>(
    alloc: Global,
    calls: &C,
    held: Held<'_>,
    e: &Expr,
    step: Step<'_>,
    budget: &mut Option<u64>,
) -> Result<Found, Halt>
    requires calls { CallsRun (C.IsAlwaysCallable calls.now) (C.post calls.now) held.scope }
    requires step { IsStep step e.now }
    requires fits { FitsAlone (meaning e.now) (formals held.scope) }
    ensures { FindGives result (meaning e.now) (around held.entry) budget.old budget.new }
{
    match step {
        Step::Signal(n) => Ok(Found {
            root: Root::Signal(n),
            window: entire(own_width(e)),
        }),
        Step::Local(n) => Ok(Found {
            root: Root::Local(n),
            window: entire(own_width(e)),
        }),
        Step::Member(from, k) => {
            let found = find(alloc, calls, held, from, budget);
            member_form(&from.of, k, found)
        }
        Step::Index(from, i) => {
            let found = find(alloc, calls, held, from, budget)?;
            let signed = own_sign(i);
            let index = bits(alloc, calls, held, i, own_width(i), signed, budget);
            index_form(&from.of, found, index, signed)
        }
        Step::Part { from, left, right } => {
            let found = find(alloc, calls, held, from, budget);
            part_form(&from.of, left, right, found)
        }
        Step::Slide {
            from,
            base,
            width,
            up,
        } => {
            let found = find(alloc, calls, held, from, budget)?;
            let signed = own_sign(base);
            let index = bits(alloc, calls, held, base, own_width(base), signed, budget);
            slide_form(&from.of, found, index, signed, width, up)
        }
    }
}
