//! The tokens of expressions.

ghost use Rattle.std.specs.Prelude.{◌≡◌, map, option_copied};
ghost use Rattle.break_spots.specs.Walk as spec;

use sv_source::Spot;
use sv_types::{Choice, Expr, Form};

/// The spot that was found before, or else this one, if it is at the token.
pub(crate) fn look<'a>(spot: &'a Spot, at: u32, found: Option<&'a Spot>) -> Option<&'a Spot>
    ensures { option_copied result ≡ spec.look at spot.now (option_copied found.entry) }
{
    match found {
        Some(s) => Some(s),
        None => { if spot.at == at { Some(spot) } else { None } }
    }
}

#[cycle(expressions)]
fn in_choice<'a>(choice: &'a Choice, at: u32, found: Option<&'a Spot>) -> Option<&'a Spot>
    ensures { option_copied result ≡ spec.choice_walk at choice.now (option_copied found.entry) }
{
    match choice {
        Choice::Value(e) => in_expr(e, at, found),
        Choice::Range(low, high) => in_expr(high, at, in_expr(low, at, found)),
    }
}

#[cycle(expressions)]
fn in_choices<'a>(choices: &'a [Choice], at: u32, found: Option<&'a Spot>) -> Option<&'a Spot>
    ensures { option_copied result ≡ spec.in_turn (map (spec.choice_walk at) choices.now) (option_copied found.entry) }
{
    let mut first = found;
    for choice in choices {
        first = in_choice(choice, at, first);
    }
    first
}

/// The spot that was found before, or else the first one at the token in these expressions.
#[cycle(expressions)]
pub(crate) fn in_exprs<'a>(es: &'a [Expr], at: u32, found: Option<&'a Spot>) -> Option<&'a Spot>
    ensures { option_copied result ≡ spec.exprs_walk at es.now (option_copied found.entry) }
{
    let mut first = found;
    for e in es {
        first = in_expr(e, at, first);
    }
    first
}

/// The spot that was found before, or else the first one at the token in an expression.
#[cycle(expressions)]
pub(crate) fn in_expr<'a>(e: &'a Expr, at: u32, found: Option<&'a Spot>) -> Option<&'a Spot>
    ensures { option_copied result ≡ spec.expr_walk at e.now (option_copied found.entry) }
{
    let first = look(&e.spot, at, found);
    match &e.form {
        Form::Literal { .. } => first,
        Form::Fill(_) => first,
        Form::Constant(_) => first,
        Form::Signal(_) => first,
        Form::Local(_) => first,
        Form::Member(from, _) => in_expr(from.get(), at, first),
        Form::Index(from, index) => in_expr(index.get(), at, in_expr(from.get(), at, first)),
        Form::Part { from, .. } => in_expr(from.get(), at, first),
        Form::Slide { from, base, .. } => in_expr(base.get(), at, in_expr(from.get(), at, first)),
        Form::Unary(_, operand) => in_expr(operand.get(), at, first),
        Form::Reduce(_, operand) => in_expr(operand.get(), at, first),
        Form::Negate(operand) => in_expr(operand.get(), at, first),
        Form::Binary(_, left, right) => in_expr(right.get(), at, in_expr(left.get(), at, first)),
        Form::Shift(_, left, right) => in_expr(right.get(), at, in_expr(left.get(), at, first)),
        Form::Power(left, right) => in_expr(right.get(), at, in_expr(left.get(), at, first)),
        Form::Order(_, left, right) => in_expr(right.get(), at, in_expr(left.get(), at, first)),
        Form::Equal { left, right, .. } => in_expr(right.get(), at, in_expr(left.get(), at, first)),
        Form::Both(left, right) => in_expr(right.get(), at, in_expr(left.get(), at, first)),
        Form::Either(left, right) => in_expr(right.get(), at, in_expr(left.get(), at, first)),
        Form::Choose(on, left, right) => {
            let first = in_expr(on.get(), at, first);
            in_expr(right.get(), at, in_expr(left.get(), at, first))
        }
        Form::Concat(parts) => in_exprs(parts.as_slice(), at, first),
        Form::Repeat(_, parts) => in_exprs(parts.as_slice(), at, first),
        Form::Inside(value, choices) => {
            let first = in_expr(value.get(), at, first);
            in_choices(choices.as_slice(), at, first)
        }
        Form::Cast(operand) => in_expr(operand.get(), at, first),
        Form::Clog2(operand) => in_expr(operand.get(), at, first),
        Form::Pattern(items) => in_exprs(items.as_slice(), at, first),
        Form::Call(_, actuals) => in_exprs(actuals.as_slice(), at, first),
        Form::Stream { parts, .. } => in_exprs(parts.as_slice(), at, first),
    }
}
