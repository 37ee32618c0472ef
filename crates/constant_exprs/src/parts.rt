//! What an expression is made of, as far as it goes for whether it is constant.

ghost use Rattle.constant_exprs.specs.Constants.{IsParts};

use crate::placed::placed;
use sv_types::{Choice, Expr, Form};

/// The expressions in an expression.
#[derive(Clone, Copy)]
pub(crate) enum Parts<'a> {
    /// None.
    Nothing,
    /// A signal or a local.
    Held,
    /// One operand.
    One(&'a Expr),
    /// Two operands.
    Two(&'a Expr, &'a Expr),
    /// Three operands.
    Three(&'a Expr, &'a Expr, &'a Expr),
    /// Operands in order.
    All(&'a [Expr]),
    /// A value, and what it may be.
    Choices(&'a Expr, &'a [Choice]),
}

/// The expressions in an expression: it is constant where all of them are.
pub(crate) fn parts_of(e: &Expr) -> Parts<'_>
    ensures { IsParts result e.now }
{
    match &e.form {
        Form::Literal { .. } => Parts::Nothing,
        Form::Fill(_) => Parts::Nothing,
        Form::Constant(_) => Parts::Nothing,
        Form::Signal(_) => Parts::Held,
        Form::Local(_) => Parts::Held,
        Form::Member(x, _) => Parts::One(x.get()),
        Form::Index(x, i) => Parts::Two(x.get(), i.get()),
        Form::Part { from, .. } => Parts::One(from.get()),
        Form::Slide { from, base, .. } => Parts::Two(from.get(), base.get()),
        Form::Unary(_, x) => Parts::One(x.get()),
        Form::Reduce(_, x) => Parts::One(x.get()),
        Form::Negate(x) => Parts::One(x.get()),
        Form::Binary(_, x, y) => Parts::Two(x.get(), y.get()),
        Form::Shift(_, x, y) => Parts::Two(x.get(), y.get()),
        Form::Power(x, y) => Parts::Two(x.get(), y.get()),
        Form::Order(_, x, y) => Parts::Two(x.get(), y.get()),
        Form::Equal { left, right, .. } => Parts::Two(left.get(), right.get()),
        Form::Both(x, y) => Parts::Two(x.get(), y.get()),
        Form::Either(x, y) => Parts::Two(x.get(), y.get()),
        Form::Choose(z, x, y) => Parts::Three(z.get(), x.get(), y.get()),
        Form::Concat(es) => Parts::All(es.as_slice()),
        Form::Repeat(_, es) => Parts::All(es.as_slice()),
        Form::Inside(x, choices) => Parts::Choices(x.get(), choices.as_slice()),
        Form::Cast(x) => Parts::One(x.get()),
        Form::Clog2(x) => Parts::One(x.get()),
        Form::Pattern(es) => Parts::All(placed(&e.of, es.as_slice())),
        Form::Call(_, es) => Parts::All(es.as_slice()),
        Form::Stream { parts, .. } => Parts::All(parts.as_slice()),
    }
}
