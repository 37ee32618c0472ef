//! What an expression is made of, as far as it goes for what it reads.

ghost use Rattle.path_steps.specs.Free.{IsInner};

use sv_types::{Choice, Expr, Form};

/// The expressions in an expression.
#[derive(Clone, Copy)]
pub(crate) enum Inner<'a> {
    /// None.
    Nothing,
    /// One operand.
    One(&'a Expr),
    /// Two operands.
    Two(&'a Expr, &'a Expr),
    /// Three operands.
    Three(&'a Expr, &'a Expr, &'a Expr),
    /// Operands in order.
    All(&'a [Expr]),
    /// A value, and what it may be.
    Choices(&'a Expr, &'a [Choice]),
    /// It reads something, or isn't looked into.
    Reads,
}

/// The expressions in an expression.
#[tactic(auto, using(crate::proofs::Freeing::inner))]
pub(crate) fn inner_of(e: &Expr) -> Inner<'_>
    ensures { IsInner result e.now }
{
    match &e.form {
        Form::Literal { .. } => Inner::Nothing,
        Form::Fill(_) => Inner::Nothing,
        Form::Constant(_) => Inner::Nothing,
        Form::Signal(_) => Inner::Reads,
        Form::Local(_) => Inner::Reads,
        Form::Member(x, _) => Inner::One(x.get()),
        Form::Index(x, i) => Inner::Two(x.get(), i.get()),
        Form::Part { from, .. } => Inner::One(from.get()),
        Form::Slide { from, base, .. } => Inner::Two(from.get(), base.get()),
        Form::Unary(_, x) => Inner::One(x.get()),
        Form::Reduce(_, x) => Inner::One(x.get()),
        Form::Negate(x) => Inner::One(x.get()),
        Form::Binary(_, x, y) => Inner::Two(x.get(), y.get()),
        Form::Shift(_, x, y) => Inner::Two(x.get(), y.get()),
        Form::Power(x, y) => Inner::Two(x.get(), y.get()),
        Form::Order(_, x, y) => Inner::Two(x.get(), y.get()),
        Form::Equal { left, right, .. } => Inner::Two(left.get(), right.get()),
        Form::Both(x, y) => Inner::Two(x.get(), y.get()),
        Form::Either(x, y) => Inner::Two(x.get(), y.get()),
        Form::Choose(z, x, y) => Inner::Three(z.get(), x.get(), y.get()),
        Form::Concat(es) => Inner::All(es.as_slice()),
        Form::Repeat(_, es) => Inner::All(es.as_slice()),
        Form::Inside(x, choices) => Inner::Choices(x.get(), choices.as_slice()),
        Form::Cast(x) => Inner::One(x.get()),
        Form::Clog2(x) => Inner::One(x.get()),
        Form::Pattern(es) => Inner::All(es.as_slice()),
        Form::Call(_, _) => Inner::Reads,
        Form::Stream { .. } => Inner::Reads,
    }
}
