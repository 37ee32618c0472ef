//! Whether all forms of an expression are lowered.

ghost use Rattle.std.specs.Prelude.{◌≡◌, true};
ghost use Rattle.expr_lower.specs.Leaves.{leaves, Each, IsLowered};
ghost use Rattle.lowered_forms.specs.Inner.{AllLowered, AllChoicesLowered, ChoiceLowered};

use crate::inner::{Inner, inner_of, is_joined};
use sv_types::{Choice, Expr};

/// Whether all forms of an expression are lowered: it has no stream, and no select of a concatenation.
#[cycle(lowered)]
pub fn is_lowered(e: &Expr) -> bool
    ensures { result ≡ true → Each IsLowered (leaves e.now) }
{
    match inner_of(e) {
        Inner::Nothing => true,
        Inner::One(x) => is_lowered(x),
        Inner::Two(x, y) => is_lowered(x) && is_lowered(y),
        Inner::Three(z, x, y) => is_lowered(z) && is_lowered(x) && is_lowered(y),
        Inner::All(es) => all_lowered(es),
        Inner::Joined(es) => all_lowered(es),
        Inner::Choices(x, choices) => is_lowered(x) && choices_lowered(choices),
        Inner::From(x) => !is_joined(x) && is_lowered(x),
        Inner::At(x, i) => !is_joined(x) && is_lowered(x) && is_lowered(i),
        Inner::Stream => false,
    }
}

/// Whether they are of each expression.
#[cycle(lowered)]
fn all_lowered(es: &[Expr]) -> bool
    ensures { result ≡ true → AllLowered es.now }
{
    for e in es {
        if !is_lowered(e) {
            return false;
        }
    }
    true
}

/// Whether they are of what a value may be.
#[cycle(lowered)]
fn choice_lowered(choice: &Choice) -> bool
    ensures { result ≡ true → ChoiceLowered choice.now }
{
    match choice {
        Choice::Value(v) => is_lowered(v),
        Choice::Range(low, high) => is_lowered(low) && is_lowered(high),
    }
}

/// Whether they are of all that a value may be.
#[cycle(lowered)]
fn choices_lowered(choices: &[Choice]) -> bool
    ensures { result ≡ true → AllChoicesLowered choices.now }
{
    for choice in choices {
        if !choice_lowered(choice) {
            return false;
        }
    }
    true
}
