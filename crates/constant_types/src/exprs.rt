//! What stands in typed expressions.

ghost use Rattle.std.specs.Prelude.{◌≡◌, ◌++◌, ◌∷◌, [], map, IfOk, OnOk};
ghost use Rattle.expr_type.specs.Uses as uses;

use expr_type::Uses;
use std::alloc::{AllocError, Global};
use sv_source::Items;
use sv_types::{Choice, Expr, Form};

/// Adds a name of a signal or local.
fn add_name(to: &mut Uses) -> Result<(), AllocError>
    ensures { OnOk result (to.new ≡ uses.naming to.old) }
{
    to.names = true;
    Ok(())
}

/// Adds a call of a function.
pub(crate) fn add_call(function: u32, to: &mut Uses) -> Result<(), AllocError>
    ensures { OnOk result (to.new ≡ uses.calling function to.old) }
{
    to.calls.push(function)
}

#[cycle(uses)]
fn add_choice(choice: &Choice, to: &mut Uses) -> Result<(), AllocError>
    ensures { OnOk result (to.new ≡ uses.choice_uses choice.now to.old) }
{
    match choice {
        Choice::Value(v) => add_uses(v, to),
        Choice::Range(low, high) => {
            add_uses(low, to)?;
            add_uses(high, to)
        }
    }
}

#[cycle(uses)]
fn add_choices(choices: &[Choice], to: &mut Uses) -> Result<(), AllocError>
    ensures { OnOk result (to.new ≡ uses.in_turn (map uses.choice_uses choices.now) to.old) }
{
    for choice in choices {
        add_choice(choice, to)?;
    }
    Ok(())
}

/// Adds what stands in expressions, in their order. Or want of memory.
#[cycle(uses)]
pub(crate) fn add_all(es: &[Expr], to: &mut Uses) -> Result<(), AllocError>
    ensures { OnOk result (to.new ≡ uses.in_turn (map uses.uses es.now) to.old) }
{
    for e in es {
        add_uses(e, to)?;
    }
    Ok(())
}

/// Adds what stands in an expression. Or want of memory.
#[cycle(uses)]
pub(crate) fn add_uses(e: &Expr, to: &mut Uses) -> Result<(), AllocError>
    ensures { OnOk result (to.new ≡ uses.uses e.now to.old) }
{
    match &e.form {
        Form::Literal { .. } => Ok(()),
        Form::Fill(_) => Ok(()),
        Form::Constant(_) => Ok(()),
        Form::Signal(_) => add_name(to),
        Form::Local(_) => add_name(to),
        Form::Member(from, _) => add_uses(from.get(), to),
        Form::Index(from, index) => {
            add_uses(from.get(), to)?;
            add_uses(index.get(), to)
        }
        Form::Part { from, .. } => add_uses(from.get(), to),
        Form::Slide { from, base, .. } => {
            add_uses(from.get(), to)?;
            add_uses(base.get(), to)
        }
        Form::Unary(_, operand) => add_uses(operand.get(), to),
        Form::Reduce(_, operand) => add_uses(operand.get(), to),
        Form::Negate(operand) => add_uses(operand.get(), to),
        Form::Binary(_, left, right) => {
            add_uses(left.get(), to)?;
            add_uses(right.get(), to)
        }
        Form::Shift(_, left, right) => {
            add_uses(left.get(), to)?;
            add_uses(right.get(), to)
        }
        Form::Power(left, right) => {
            add_uses(left.get(), to)?;
            add_uses(right.get(), to)
        }
        Form::Order(_, left, right) => {
            add_uses(left.get(), to)?;
            add_uses(right.get(), to)
        }
        Form::Equal { left, right, .. } => {
            add_uses(left.get(), to)?;
            add_uses(right.get(), to)
        }
        Form::Both(left, right) => {
            add_uses(left.get(), to)?;
            add_uses(right.get(), to)
        }
        Form::Either(left, right) => {
            add_uses(left.get(), to)?;
            add_uses(right.get(), to)
        }
        Form::Choose(on, left, right) => {
            add_uses(on.get(), to)?;
            add_uses(left.get(), to)?;
            add_uses(right.get(), to)
        }
        Form::Concat(parts) => add_all(parts.as_slice(), to),
        Form::Repeat(_, parts) => add_all(parts.as_slice(), to),
        Form::Inside(value, choices) => {
            add_choices(choices.as_slice(), to)?;
            add_uses(value.get(), to)
        }
        Form::Cast(operand) => add_uses(operand.get(), to),
        Form::Clog2(operand) => add_uses(operand.get(), to),
        Form::Pattern(items) => add_all(items.as_slice(), to),
        Form::Call(function, actuals) => {
            add_call(*function, to)?;
            add_all(actuals.as_slice(), to)
        }
        Form::Stream { parts, .. } => {
            to.streams = true;
            add_all(parts.as_slice(), to)
        }
    }
}

/// What stands in nothing.
pub(crate) fn no_uses(alloc: Global) -> Uses
    ensures { result ≡ uses.nothing }
{
    Uses {
        names: false,
        streams: false,
        calls: Items::new(alloc),
    }
}

/// What stands in an expression. Or want of memory.
pub fn uses_of(alloc: Global, e: &Expr) -> Result<Uses, AllocError>
    ensures { IfOk result (λ u. u ≡ uses.uses e.now uses.nothing) }
{
    let mut all = no_uses(alloc);
    add_uses(e, &mut all)?;
    Ok(all)
}
