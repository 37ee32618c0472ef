//! The last steps of select paths (IEEE 1800-2017 clause 11.5.1).

ghost use Rattle.std.specs.Prelude.{◌≡◌, ◌<◌, ◌^◌};
ghost use Rattle.sv_types.specs.Expressions.{meaning};
ghost use Rattle.eval_parts.specs.Steps.{IsStepOf, IsPlain, is_held, can_read};

use b4_core::Vec4;
use sv_types::{Expr, Form};

/// The last step of a select path.
#[derive(Clone, Copy)]
pub enum Step<'a> {
    /// All of the signal with a number.
    Signal(u32),
    /// All of the local with a number.
    Local(u32),
    /// The member with a number.
    Member(&'a Expr, u32),
    /// An element by an index.
    Index(&'a Expr, &'a Expr),
    /// A part-select with constant bounds.
    Part {
        /// What is selected from.
        from: &'a Expr,
        /// The left bound.
        left: i64,
        /// The right bound.
        right: i64,
    },
    /// An indexed part-select.
    Slide {
        /// What is selected from.
        from: &'a Expr,
        /// The index at which it begins.
        base: &'a Expr,
        /// How many elements it selects.
        width: u32,
        /// Whether it is `+:`.
        up: bool,
    },
}

/// The last step of an expression that is a select path.
#[tactic(auto, using(crate::proofs::Valued::valued, crate::proofs::Plain::plain))]
pub fn step_of(e: &Expr) -> Option<Step<'_>>
    ensures step { IsStepOf result e.now }
    ensures plain { IsPlain result e.now }
{
    match &e.form {
        Form::Literal { .. } => None,
        Form::Fill(_) => None,
        Form::Constant(_) => None,
        Form::Signal(n) => Some(Step::Signal(*n)),
        Form::Local(n) => Some(Step::Local(*n)),
        Form::Member(from, k) => Some(Step::Member(from.get(), *k)),
        Form::Index(from, i) => Some(Step::Index(from.get(), i.get())),
        Form::Part { from, left, right } => Some(Step::Part {
            from: from.get(),
            left: *left,
            right: *right,
        }),
        Form::Slide {
            from,
            base,
            width,
            up,
        } => Some(Step::Slide {
            from: from.get(),
            base: base.get(),
            width: *width,
            up: *up,
        }),
        Form::Unary(_, _) => None,
        Form::Reduce(_, _) => None,
        Form::Negate(_) => None,
        Form::Binary(_, _, _) => None,
        Form::Shift(_, _, _) => None,
        Form::Power(_, _) => None,
        Form::Order(_, _, _) => None,
        Form::Equal { .. } => None,
        Form::Both(_, _) => None,
        Form::Either(_, _) => None,
        Form::Choose(_, _, _) => None,
        Form::Concat(_) => None,
        Form::Repeat(_, _) => None,
        Form::Inside(_, _) => None,
        Form::Cast(_) => None,
        Form::Clog2(_) => None,
        Form::Pattern(_) => None,
        Form::Call(_, _) => None,
        Form::Stream { .. } => None,
    }
}

// Whether a slot holds bits.
fn is_filled(slots: &[Option<Vec4>], n: u32) -> bool
    ensures value { result ≡ is_held slots.now n }
    ensures low { n < 2 ^ 32 }
{
    match slots.get(n as usize) {
        None => false,
        Some(None) => false,
        Some(Some(_)) => true,
    }
}

/// Whether what an expression stands on can be read: a signal is to be held, locals and values always are. Slots are by the
/// numbers of signals.
pub fn can_be_read(e: &Expr, signals: &[Option<Vec4>]) -> bool
    ensures { result ≡ can_read (meaning e.now).root (is_held signals.now) }
{
    match step_of(e) {
        None => true,
        Some(Step::Signal(n)) => is_filled(signals, n),
        Some(Step::Local(_)) => true,
        Some(Step::Member(from, _)) => can_be_read(from, signals),
        Some(Step::Index(from, _)) => can_be_read(from, signals),
        Some(Step::Part { from, .. }) => can_be_read(from, signals),
        Some(Step::Slide { from, .. }) => can_be_read(from, signals),
    }
}
