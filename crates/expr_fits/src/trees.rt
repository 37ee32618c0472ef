//! Whether expressions fit.

ghost use Rattle.std.specs.Prelude.{◌<◌};
ghost use Rattle.sv_types.specs.Meanings.{wide};
ghost use Rattle.sv_types.specs.Expressions.{meaning};
ghost use Rattle.eval_parts.specs.Targets.{AreNarrow, marks_of};
ghost use Rattle.eval_forms.specs.Callees.{formals_in};
ghost use Rattle.expr_fits.specs.Needs.{IsNeed, FitsIf, EachIf, PlacedIf, ChoiceIf, ChoicesIf, SideIf};

use crate::compared::widest_compared;
use crate::lists::{call, concat, constant, fill, inside, literal, pattern, repeat, stream};
use crate::needs::Need;
use crate::operators::{
    binary, both, cast, choose, clog2, either, equal, is_word, negate, order, power, reduce, shift,
    unary,
};
use crate::paths::{index, local, member, part_select, signal, sliding};
use crate::results::own;
use eval_parts::{Places, type_at};
use sv_types::{Choice, Expr, Form, Function, width};

// What has to fit for an expression to fit at a width.
fn need<'a>(e: &'a Expr, functions: &'a [Function], width: u32) -> Need<'a>
    requires { 0 < width }
    ensures { IsNeed result e.now (formals_in functions.now) width }
{
    match &e.form {
        Form::Literal { bits, goes_on } => literal(e, bits, *goes_on, width),
        Form::Fill(b) => fill(e, *b, width),
        Form::Constant(v) => constant(e, v, width),
        Form::Signal(n) => signal(e, *n, width),
        Form::Local(n) => local(e, *n, width),
        Form::Member(x, k) => member(e, x.get(), *k, width),
        Form::Index(x, i) => index(e, x.get(), i.get(), width),
        Form::Part { from, left, right } => part_select(e, from.get(), *left, *right, width),
        Form::Slide {
            from,
            base,
            width: count,
            up,
        } => sliding(e, from.get(), base.get(), *count, *up, width),
        Form::Unary(op, x) => unary(e, *op, x.get(), width),
        Form::Reduce(op, x) => reduce(e, *op, x.get(), width),
        Form::Negate(x) => negate(e, x.get(), width),
        Form::Binary(op, x, y) => binary(e, *op, x.get(), y.get(), width),
        Form::Shift(op, x, y) => shift(e, *op, x.get(), y.get(), width),
        Form::Power(x, y) => power(e, x.get(), y.get(), width),
        Form::Order(op, x, y) => order(e, *op, x.get(), y.get(), width),
        Form::Equal {
            op,
            negated,
            left,
            right,
        } => equal(e, *op, *negated, left.get(), right.get(), width),
        Form::Both(x, y) => both(e, x.get(), y.get(), width),
        Form::Either(x, y) => either(e, x.get(), y.get(), width),
        Form::Choose(z, x, y) => choose(e, z.get(), x.get(), y.get(), width),
        Form::Concat(es) => concat(e, es.as_slice(), width),
        Form::Repeat(n, es) => repeat(e, *n, es.as_slice(), width),
        Form::Inside(x, choices) => inside(e, x.get(), choices.as_slice(), width),
        Form::Cast(x) => cast(e, x.get(), width),
        Form::Clog2(x) => clog2(e, x.get(), width),
        Form::Pattern(es) => pattern(e, es.as_slice(), width),
        Form::Call(f, es) => call(e, functions, *f, es.as_slice(), width),
        Form::Stream {
            reversed,
            slice,
            parts,
        } => stream(e, *reversed, *slice, parts.as_slice(), width),
    }
}

/// Whether an expression fits at a width. It says so of no index of a struct, a union or a scalar, of no part of an enum, and
/// of no call with more actuals than formals.
#[cycle(fits)]
pub fn fits(e: &Expr, functions: &[Function], width: u32) -> bool
    ensures { FitsIf result (meaning e.now) (formals_in functions.now) width }
{
    if width == 0 {
        return false;
    }
    match need(e, functions, width) {
        Need::Never => false,
        Need::Nothing => true,
        Need::One(x) => fits(x.of, functions, x.width),
        Need::Two(x, y) => fits(x.of, functions, x.width) && fits(y.of, functions, y.width),
        Need::Three(z, x, y) => {
            fits(z.of, functions, z.width)
                && fits(x.of, functions, x.width)
                && fits(y.of, functions, y.width)
        }
        Need::Each(es) => each_fits(es, functions),
        Need::Placed(places, es) => placed_fit(&places, es, functions),
        Need::Inside(x, choices) => {
            choices_fit(own(x), choices, functions)
                && fits(x, functions, widest_compared(own(x), choices))
        }
    }
}

/// Whether an expression fits alone.
#[cycle(fits)]
pub fn fits_alone(e: &Expr, functions: &[Function]) -> bool
    ensures { FitsIf result (meaning e.now) (formals_in functions.now) (wide (meaning e.now)) }
{
    fits(e, functions, own(e))
}

// Whether each fits alone.
#[cycle(fits)]
fn each_fits(es: &[Expr], functions: &[Function]) -> bool
    ensures { EachIf result es.now (formals_in functions.now) }
{
    for e in es {
        if !fits_alone(e, functions) {
            return false;
        }
    }
    true
}

// Whether each fits as it is assigned to its place.
#[cycle(fits)]
fn placed_fit(places: &Places<'_>, es: &[Expr], functions: &[Function]) -> bool
    requires { AreNarrow places.now }
    ensures { PlacedIf result (marks_of places.now) es.now (formals_in functions.now) }
{
    for (i, e) in es.iter().enumerate() {
        let Some(t) = type_at(places, i) else {
            return true;
        };
        if !fits(e, functions, width(t).max(own(e))) {
            return false;
        }
    }
    true
}

// Whether what a value of a width is compared with fits.
#[cycle(fits)]
fn choice_fits(bits: u32, choice: &Choice, functions: &[Function]) -> bool
    ensures { ChoiceIf result bits (formals_in functions.now) choice.now }
{
    match choice {
        Choice::Value(v) => fits(v, functions, bits.max(own(v))),
        Choice::Range(low, high) => {
            side_fits(bits, low, functions) && side_fits(bits, high, functions)
        }
    }
}

// Whether a bound that a value of a width is compared with fits.
#[cycle(fits)]
fn side_fits(bits: u32, side: &Expr, functions: &[Function]) -> bool
    ensures { SideIf result bits (meaning side.now) (formals_in functions.now) }
{
    let wider = bits.max(own(side));
    if !is_word(wider) {
        return false;
    }
    fits(side, functions, wider)
}

#[cycle(fits)]
fn choices_fit(bits: u32, choices: &[Choice], functions: &[Function]) -> bool
    ensures { ChoicesIf result bits (formals_in functions.now) choices.now }
{
    for choice in choices {
        if !choice_fits(bits, choice, functions) {
            return false;
        }
    }
    true
}
