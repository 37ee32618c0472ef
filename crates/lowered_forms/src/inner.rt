//! What an expression is made of, as far as its lowering goes.

ghost use Rattle.std.specs.Prelude.{◌≡◌, false};
ghost use Rattle.lowered_forms.specs.Inner.{IsBase, IsInner};

use sv_types::{Choice, Expr, Form};

/// The expressions in an expression.
#[derive(Clone, Copy)]
pub(crate) enum Inner<'a> {
    /// None.
    Nothing,
    /// One operand.
    One(&'a Expr),
    /// Two operands.
    Two(&'a Expr, &'a Expr),
    /// Three operands.
    Three(&'a Expr, &'a Expr, &'a Expr),
    /// Operands in order.
    All(&'a [Expr]),
    /// The parts of a concatenation.
    Joined(&'a [Expr]),
    /// A value, and what it may be.
    Choices(&'a Expr, &'a [Choice]),
    /// What is selected from.
    From(&'a Expr),
    /// What is selected from, and an index.
    At(&'a Expr, &'a Expr),
    /// The parts of a stream, which isn't lowered.
    Stream,
}

/// The expressions in an expression.
#[tactic(auto, using(crate::proofs::Composing::inner))]
pub(crate) fn inner_of(e: &Expr) -> Inner<'_>
    ensures { IsInner result e.now }
{
    match &e.form {
        Form::Literal { .. } => Inner::Nothing,
        Form::Fill(_) => Inner::Nothing,
        Form::Constant(_) => Inner::Nothing,
        Form::Signal(_) => Inner::Nothing,
        Form::Local(_) => Inner::Nothing,
        Form::Member(x, _) => Inner::From(x.get()),
        Form::Index(x, i) => Inner::At(x.get(), i.get()),
        Form::Part { from, .. } => Inner::From(from.get()),
        Form::Slide { from, base, .. } => Inner::At(from.get(), base.get()),
        Form::Unary(_, x) => Inner::One(x.get()),
        Form::Reduce(_, x) => Inner::One(x.get()),
        Form::Negate(x) => Inner::One(x.get()),
        Form::Binary(_, x, y) => Inner::Two(x.get(), y.get()),
        Form::Shift(_, x, y) => Inner::Two(x.get(), y.get()),
        Form::Power(x, y) => Inner::Two(x.get(), y.get()),
        Form::Order(_, x, y) => Inner::Two(x.get(), y.get()),
        Form::Equal { left, right, .. } => Inner::Two(left.get(), right.get()),
        Form::Both(x, y) => Inner::Two(x.get(), y.get()),
        Form::Either(x, y) => Inner::Two(x.get(), y.get()),
        Form::Choose(z, x, y) => Inner::Three(z.get(), x.get(), y.get()),
        Form::Concat(es) => Inner::Joined(es.as_slice()),
        Form::Repeat(_, es) => Inner::All(es.as_slice()),
        Form::Inside(x, choices) => Inner::Choices(x.get(), choices.as_slice()),
        Form::Cast(x) => Inner::One(x.get()),
        Form::Clog2(x) => Inner::One(x.get()),
        Form::Pattern(es) => Inner::All(es.as_slice()),
        Form::Call(_, es) => Inner::All(es.as_slice()),
        Form::Stream { .. } => Inner::Stream,
    }
}

/// Whether an expression is a concatenation.
pub(crate) fn is_joined(e: &Expr) -> bool
    ensures { result ≡ false → IsBase e.now }
{
    match inner_of(e) {
        Inner::Nothing => false,
        Inner::One(_) => false,
        Inner::Two(_, _) => false,
        Inner::Three(_, _, _) => false,
        Inner::All(_) => false,
        Inner::Joined(_) => true,
        Inner::Choices(_, _) => false,
        Inner::From(_) => false,
        Inner::At(_, _) => false,
        Inner::Stream => true,
    }
}
