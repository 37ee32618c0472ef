//! Plain names in connections (IEEE 1800-2017 clause 23.3.2).

ghost use Rattle.std.specs.Prelude.{◌≡◌};
ghost use Rattle.edge_breaks.specs.Links as spec;

use sv_types::{Expr, Form, Stmt};

// The number of the signal that an expression is.
fn signal_of(e: &Expr) -> Option<u32>
    ensures { result ≡ spec.signal_of e.now }
{
    match &e.form {
        Form::Literal { .. } => None,
        Form::Fill(_) => None,
        Form::Constant(_) => None,
        Form::Signal(n) => Some(*n),
        Form::Local(_) => None,
        Form::Member(_, _) => None,
        Form::Index(_, _) => None,
        Form::Part { .. } => None,
        Form::Slide { .. } => None,
        Form::Unary(_, _) => None,
        Form::Reduce(_, _) => None,
        Form::Negate(_) => None,
        Form::Binary(_, _, _) => None,
        Form::Shift(_, _, _) => None,
        Form::Power(_, _) => None,
        Form::Order(_, _, _) => None,
        Form::Equal { .. } => None,
        Form::Both(_, _) => None,
        Form::Either(_, _) => None,
        Form::Choose(_, _, _) => None,
        Form::Concat(_) => None,
        Form::Repeat(_, _) => None,
        Form::Inside(_, _) => None,
        Form::Cast(_) => None,
        Form::Clog2(_) => None,
        Form::Pattern(_) => None,
        Form::Call(_, _) => None,
        Form::Stream { .. } => None,
    }
}

/// The number of the signal that an assignment assigns as a whole.
pub fn plain_name(s: &Stmt) -> Option<u32>
    ensures { result ≡ spec.plain_name s.now }
{
    match s {
        Stmt::Block { .. } => None,
        Stmt::If { .. } => None,
        Stmt::Case { .. } => None,
        Stmt::Loop { .. } => None,
        Stmt::Assign { value, .. } => signal_of(value),
        Stmt::Call { .. } => None,
        Stmt::Made { .. } => None,
        Stmt::Break => None,
        Stmt::Continue => None,
        Stmt::Return => None,
    }
}
