//! Which forms have no operator of the target language.

ghost use Rattle.expr_lower.specs.Specials.{IsSpecialOf, IsWildOf};

use b4_core::EqOp;
use sv_types::{Choice, Expr, Form};

/// A form that has no operator of the target language.
#[derive(Clone, Copy)]
pub enum Special<'a> {
    /// `==?`, or negated `!=?`.
    Wild {
        /// Whether it is `!=?`.
        negated: bool,
        /// The left operand.
        left: &'a Expr,
        /// The right operand.
        right: &'a Expr,
    },
    /// `inside`.
    Inside(&'a Expr, &'a [Choice]),
    /// A cast.
    Cast(&'a Expr),
    /// `$clog2`.
    Clog2(&'a Expr),
    /// An assignment pattern of these items.
    Pattern(&'a [Expr]),
    /// A call of the function with this number, with these actuals.
    Call(u32, &'a [Expr]),
}

/// An equality, if it is `==?` or `!=?`.
fn wild_of<'a>(op: EqOp, negated: bool, left: &'a Expr, right: &'a Expr) -> Option<Special<'a>>
    ensures { IsWildOf result op negated left.now right.now }
{
    match op {
        EqOp::Logic => None,
        EqOp::Case => None,
        EqOp::Wild => Some(Special::Wild {
            negated,
            left,
            right,
        }),
    }
}

/// The form of an expression, if it has no operator of the target language.
#[tactic(auto, using(crate::proofs::Plain::plain))]
pub fn special_of(e: &Expr) -> Option<Special<'_>>
    ensures { IsSpecialOf result e.now }
{
    match &e.form {
        Form::Literal { .. } => None,
        Form::Fill(_) => None,
        Form::Constant(_) => None,
        Form::Signal(_) => None,
        Form::Local(_) => None,
        Form::Member(_, _) => None,
        Form::Index(_, _) => None,
        Form::Part { .. } => None,
        Form::Slide { .. } => None,
        Form::Unary(_, _) => None,
        Form::Reduce(_, _) => None,
        Form::Negate(_) => None,
        Form::Binary(_, _, _) => None,
        Form::Shift(_, _, _) => None,
        Form::Power(_, _) => None,
        Form::Order(_, _, _) => None,
        Form::Equal {
            op,
            negated,
            left,
            right,
        } => wild_of(*op, *negated, left.get(), right.get()),
        Form::Both(_, _) => None,
        Form::Either(_, _) => None,
        Form::Choose(_, _, _) => None,
        Form::Concat(_) => None,
        Form::Repeat(_, _) => None,
        Form::Inside(x, choices) => Some(Special::Inside(x.get(), choices.as_slice())),
        Form::Cast(x) => Some(Special::Cast(x.get())),
        Form::Clog2(x) => Some(Special::Clog2(x.get())),
        Form::Pattern(items) => Some(Special::Pattern(items.as_slice())),
        Form::Call(f, actuals) => Some(Special::Call(*f, actuals.as_slice())),
        Form::Stream { .. } => None,
    }
}
