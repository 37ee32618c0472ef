//! Expressions.

ghost use Rattle.std.specs.Prelude.{◌≡◌, map, OnOk};
ghost use Rattle.body_mentions.specs.Walk as spec;

use crate::Mentioned;
use std::alloc::AllocError;
use sv_types::{Choice, Expr, Form};

/// Adds a call of a function.
pub(crate) fn add_call(function: u32, to: &mut Mentioned) -> Result<(), AllocError>
    ensures { OnOk result (to.new ≡ spec.calling function to.old) }
{
    to.calls.push(function)
}

// Adds a signal as a whole.
fn add_signal(signal: u32, to: &mut Mentioned) -> Result<(), AllocError>
    ensures { OnOk result (to.new ≡ spec.naming signal to.old) }
{
    to.whole.push(signal)
}

// Whether an expression is a signal as a whole.
fn is_signal(e: &Expr) -> bool
    ensures { result ≡ (spec.walk e.now).is_signal }
{
    match &e.form {
        Form::Literal { .. } => false,
        Form::Fill(_) => false,
        Form::Constant(_) => false,
        Form::Signal(_) => true,
        Form::Local(_) => false,
        Form::Member(_, _) => false,
        Form::Index(_, _) => false,
        Form::Part { .. } => false,
        Form::Slide { .. } => false,
        Form::Unary(_, _) => false,
        Form::Reduce(_, _) => false,
        Form::Negate(_) => false,
        Form::Binary(_, _, _) => false,
        Form::Shift(_, _, _) => false,
        Form::Power(_, _) => false,
        Form::Order(_, _, _) => false,
        Form::Equal { .. } => false,
        Form::Both(_, _) => false,
        Form::Either(_, _) => false,
        Form::Choose(_, _, _) => false,
        Form::Concat(_) => false,
        Form::Repeat(_, _) => false,
        Form::Inside(_, _) => false,
        Form::Cast(_) => false,
        Form::Clog2(_) => false,
        Form::Pattern(_) => false,
        Form::Call(_, _) => false,
        Form::Stream { .. } => false,
    }
}

#[cycle(mentions)]
fn add_choice(choice: &Choice, to: &mut Mentioned) -> Result<(), AllocError>
    ensures { OnOk result (to.new ≡ (spec.choice_walk choice.now).add to.old) }
{
    match choice {
        Choice::Value(v) => add_mentions(v, to),
        Choice::Range(low, high) => {
            add_mentions(low, to)?;
            add_mentions(high, to)
        }
    }
}

#[cycle(mentions)]
fn add_choices(choices: &[Choice], to: &mut Mentioned) -> Result<(), AllocError>
    ensures { OnOk result (to.new ≡ spec.in_turn (map spec.choice_walk choices.now) to.old) }
{
    for choice in choices {
        add_choice(choice, to)?;
    }
    Ok(())
}

/// Adds what expressions mention, in their order. Or want of memory.
#[cycle(mentions)]
pub(crate) fn add_all(es: &[Expr], to: &mut Mentioned) -> Result<(), AllocError>
    ensures { OnOk result (to.new ≡ spec.in_turn (map spec.walk es.now) to.old) }
{
    for e in es {
        add_mentions(e, to)?;
    }
    Ok(())
}

/// Adds what an expression mentions. Or want of memory.
#[cycle(mentions)]
pub(crate) fn add_mentions(e: &Expr, to: &mut Mentioned) -> Result<(), AllocError>
    ensures { OnOk result (to.new ≡ (spec.walk e.now).add to.old) }
{
    match &e.form {
        Form::Literal { .. } => Ok(()),
        Form::Fill(_) => Ok(()),
        Form::Constant(_) => Ok(()),
        Form::Signal(n) => add_signal(*n, to),
        Form::Local(_) => Ok(()),
        Form::Member(from, _) => add_mentions(from.get(), to),
        Form::Index(from, index) => {
            if is_signal(from.get()) {
                return add_mentions(index.get(), to);
            }
            add_mentions(from.get(), to)?;
            add_mentions(index.get(), to)
        }
        Form::Part { from, .. } => add_mentions(from.get(), to),
        Form::Slide { from, base, .. } => {
            add_mentions(from.get(), to)?;
            add_mentions(base.get(), to)
        }
        Form::Unary(_, operand) => add_mentions(operand.get(), to),
        Form::Reduce(_, operand) => add_mentions(operand.get(), to),
        Form::Negate(operand) => add_mentions(operand.get(), to),
        Form::Binary(_, left, right) => {
            add_mentions(left.get(), to)?;
            add_mentions(right.get(), to)
        }
        Form::Shift(_, left, right) => {
            add_mentions(left.get(), to)?;
            add_mentions(right.get(), to)
        }
        Form::Power(left, right) => {
            add_mentions(left.get(), to)?;
            add_mentions(right.get(), to)
        }
        Form::Order(_, left, right) => {
            add_mentions(left.get(), to)?;
            add_mentions(right.get(), to)
        }
        Form::Equal { left, right, .. } => {
            add_mentions(left.get(), to)?;
            add_mentions(right.get(), to)
        }
        Form::Both(left, right) => {
            add_mentions(left.get(), to)?;
            add_mentions(right.get(), to)
        }
        Form::Either(left, right) => {
            add_mentions(left.get(), to)?;
            add_mentions(right.get(), to)
        }
        Form::Choose(on, left, right) => {
            add_mentions(on.get(), to)?;
            add_mentions(left.get(), to)?;
            add_mentions(right.get(), to)
        }
        Form::Concat(parts) => add_all(parts.as_slice(), to),
        Form::Repeat(_, parts) => add_all(parts.as_slice(), to),
        Form::Inside(value, choices) => {
            add_mentions(value.get(), to)?;
            add_choices(choices.as_slice(), to)
        }
        Form::Cast(operand) => add_mentions(operand.get(), to),
        Form::Clog2(operand) => add_mentions(operand.get(), to),
        Form::Pattern(items) => add_all(items.as_slice(), to),
        Form::Call(function, actuals) => {
            add_call(*function, to)?;
            add_all(actuals.as_slice(), to)
        }
        Form::Stream { parts, .. } => add_all(parts.as_slice(), to),
    }
}
