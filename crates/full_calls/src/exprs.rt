//! Expressions.

ghost use Rattle.std.specs.Prelude.{◌≡◌, nat_le, length};
ghost use Rattle.eval_forms.specs.Callees.{formals_in};
ghost use Rattle.expr_flows.specs.Full as F;
ghost use Rattle.full_calls.specs.Full.{FullIf, choice_full, choices_full};

use expr_fits::formals_of;
use sv_types::{Choice, Expr, Form, Function};

// Whether a function has so many formals.
#[tactic(auto, using(crate::proofs::Parts::counts))]
fn has_formals(functions: &[Function], function: u32, count: usize) -> bool
    ensures { result ≡ nat_le count (length (formals_in functions.now function)) }
{
    count <= formals_of(functions, function).len()
}

/// Whether no call in an expression passes more than there are formals.
#[cycle(full)]
#[tactic(auto, using(crate::proofs::Parts::forms))]
pub fn is_full(e: &Expr, functions: &[Function]) -> bool
    ensures { FullIf result (F.is_full (formals_in functions.now) e.now) }
{
    match &e.form {
        Form::Literal { .. } => true,
        Form::Fill(_) => true,
        Form::Constant(_) => true,
        Form::Signal(_) => true,
        Form::Local(_) => true,
        Form::Member(x, _) => is_full(x.get(), functions),
        Form::Part { from: x, .. } => is_full(x.get(), functions),
        Form::Unary(_, x) => is_full(x.get(), functions),
        Form::Reduce(_, x) => is_full(x.get(), functions),
        Form::Negate(x) => is_full(x.get(), functions),
        Form::Cast(x) => is_full(x.get(), functions),
        Form::Clog2(x) => is_full(x.get(), functions),
        Form::Index(x, y) => is_full(x.get(), functions) && is_full(y.get(), functions),
        Form::Slide {
            from: x,
            base: y,
            ..
        } => is_full(x.get(), functions) && is_full(y.get(), functions),
        Form::Binary(_, x, y) => is_full(x.get(), functions) && is_full(y.get(), functions),
        Form::Shift(_, x, y) => is_full(x.get(), functions) && is_full(y.get(), functions),
        Form::Power(x, y) => is_full(x.get(), functions) && is_full(y.get(), functions),
        Form::Order(_, x, y) => is_full(x.get(), functions) && is_full(y.get(), functions),
        Form::Equal {
            left: x,
            right: y,
            ..
        } => is_full(x.get(), functions) && is_full(y.get(), functions),
        Form::Both(x, y) => is_full(x.get(), functions) && is_full(y.get(), functions),
        Form::Either(x, y) => is_full(x.get(), functions) && is_full(y.get(), functions),
        Form::Choose(z, x, y) => {
            is_full(z.get(), functions)
                && is_full(x.get(), functions)
                && is_full(y.get(), functions)
        }
        Form::Concat(es) => are_full(es.as_slice(), functions),
        Form::Repeat(_, es) => are_full(es.as_slice(), functions),
        Form::Pattern(es) => are_full(es.as_slice(), functions),
        Form::Stream { parts: es, .. } => are_full(es.as_slice(), functions),
        Form::Inside(x, choices) => {
            is_full(x.get(), functions) && are_choices_full(choices.as_slice(), functions)
        }
        Form::Call(f, es) => {
            has_formals(functions, *f, es.len()) && are_full(es.as_slice(), functions)
        }
    }
}

/// Whether none in any of these does.
#[cycle(full)]
pub fn are_full(es: &[Expr], functions: &[Function]) -> bool
    ensures { FullIf result (F.all_full (formals_in functions.now) es.now) }
{
    for e in es {
        if !is_full(e, functions) {
            return false;
        }
    }
    true
}

// Whether none in an alternative does.
#[cycle(full)]
#[tactic(auto, using(crate::proofs::Parts::alternatives))]
fn is_choice_full(choice: &Choice, functions: &[Function]) -> bool
    ensures { FullIf result (choice_full (formals_in functions.now) choice.now) }
{
    match choice {
        Choice::Value(v) => is_full(v, functions),
        Choice::Range(low, high) => is_full(low, functions) && is_full(high, functions),
    }
}

#[cycle(full)]
fn are_choices_full(choices: &[Choice], functions: &[Function]) -> bool
    ensures { FullIf result (choices_full (formals_in functions.now) choices.now) }
{
    for choice in choices {
        if !is_choice_full(choice, functions) {
            return false;
        }
    }
    true
}
