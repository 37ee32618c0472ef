//! Expressions whose value is known whatever signals and locals hold (IEEE 1800-2017 clause 11.2.1).

ghost use Rattle.sv_types.specs.Expressions.{meaning};
ghost use Rattle.constant_exprs.specs.Constants.{ConstantIf, AllConstantIf, meanings, choice_meanings, alternatives};

use crate::parts::{Parts, parts_of};
use sv_types::{Choice, Expr};

/// Whether an expression is constant where nothing is known of signals and locals: it names none, be it in what it passes to
/// functions.
#[cycle(constant)]
pub fn is_constant(e: &Expr) -> bool
    ensures { ConstantIf result (meaning e.now) }
{
    match parts_of(e) {
        Parts::Nothing => true,
        Parts::Held => false,
        Parts::One(x) => is_constant(x),
        Parts::Two(x, y) => is_constant(x) && is_constant(y),
        Parts::Three(z, x, y) => is_constant(z) && is_constant(x) && is_constant(y),
        Parts::All(es) => are_constant(es),
        Parts::Choices(x, choices) => is_constant(x) && choices_constant(choices),
    }
}

/// Whether each expression is.
#[cycle(constant)]
fn are_constant(es: &[Expr]) -> bool
    ensures { AllConstantIf result (meanings es.now) }
{
    for e in es {
        if !is_constant(e) {
            return false;
        }
    }
    true
}

/// Whether what a value may be is.
#[cycle(constant)]
fn choice_constant(choice: &Choice) -> bool
    ensures { AllConstantIf result (choice_meanings choice.now) }
{
    match choice {
        Choice::Value(v) => is_constant(v),
        Choice::Range(low, high) => is_constant(low) && is_constant(high),
    }
}

/// Whether all that a value may be is.
#[cycle(constant)]
fn choices_constant(choices: &[Choice]) -> bool
    ensures { AllConstantIf result (alternatives choices.now) }
{
    for choice in choices {
        if !choice_constant(choice) {
            return false;
        }
    }
    true
}
