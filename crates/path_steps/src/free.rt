//! Expressions that read nothing.

ghost use Rattle.std.specs.Prelude.{◌≡◌, true};
ghost use Rattle.path_steps.specs.Free.{IsFree, AllFree, ChoiceFree, AllChoicesFree};

use crate::inner::{Inner, inner_of};
use sv_types::{Choice, Expr};

/// Whether an expression is made of numbers and constants alone: it has no signal, no local, no call and no stream.
#[cycle(free)]
pub(crate) fn is_free(e: &Expr) -> bool
    ensures { result ≡ true → IsFree e.now }
{
    match inner_of(e) {
        Inner::Nothing => true,
        Inner::One(x) => is_free(x),
        Inner::Two(x, y) => is_free(x) && is_free(y),
        Inner::Three(z, x, y) => is_free(z) && is_free(x) && is_free(y),
        Inner::All(es) => are_free(es),
        Inner::Choices(x, choices) => is_free(x) && choices_free(choices),
        Inner::Reads => false,
    }
}

/// Whether each expression is.
#[cycle(free)]
fn are_free(es: &[Expr]) -> bool
    ensures { result ≡ true → AllFree es.now }
{
    for e in es {
        if !is_free(e) {
            return false;
        }
    }
    true
}

/// Whether what a value may be is.
#[cycle(free)]
fn choice_free(choice: &Choice) -> bool
    ensures { result ≡ true → ChoiceFree choice.now }
{
    match choice {
        Choice::Value(v) => is_free(v),
        Choice::Range(low, high) => is_free(low) && is_free(high),
    }
}

/// Whether all that a value may be is.
#[cycle(free)]
fn choices_free(choices: &[Choice]) -> bool
    ensures { result ≡ true → AllChoicesFree choices.now }
{
    for choice in choices {
        if !choice_free(choice) {
            return false;
        }
    }
    true
}
