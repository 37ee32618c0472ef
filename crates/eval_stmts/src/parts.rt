//! What expressions are as targets (IEEE 1800-2017 clauses 10.4 and 11.4.14).

ghost use Rattle.std.specs.Prelude.{◌≡◌};
ghost use Rattle.eval_stmts.specs.Parts.{IsTarget};

use eval_parts::{Step, Stream};
use sv_types::{Expr, Form};

/// What an expression is as a target.
#[derive(Clone, Copy)]
pub enum Target<'a> {
    /// A select path, by its last step.
    Path(Step<'a>),
    /// Parts, the first one most significant.
    Concat(&'a [Expr]),
    /// A stream.
    Stream(Stream<'a>),
    /// What isn't written, but valued.
    Value,
}

/// What an expression is as a target.
#[tactic(auto, using(crate::proofs::Unwritten::unwritten))]
pub fn target_of(e: &Expr) -> Target<'_>
    ensures { IsTarget result e.now }
{
    match &e.form {
        Form::Literal { .. } => Target::Value,
        Form::Fill(_) => Target::Value,
        Form::Constant(_) => Target::Value,
        Form::Signal(n) => Target::Path(Step::Signal(*n)),
        Form::Local(n) => Target::Path(Step::Local(*n)),
        Form::Member(from, k) => Target::Path(Step::Member(from.get(), *k)),
        Form::Index(from, i) => Target::Path(Step::Index(from.get(), i.get())),
        Form::Part { from, left, right } => Target::Path(Step::Part {
            from: from.get(),
            left: *left,
            right: *right,
        }),
        Form::Slide {
            from,
            base,
            width,
            up,
        } => Target::Path(Step::Slide {
            from: from.get(),
            base: base.get(),
            width: *width,
            up: *up,
        }),
        Form::Unary(_, _) => Target::Value,
        Form::Reduce(_, _) => Target::Value,
        Form::Negate(_) => Target::Value,
        Form::Binary(_, _, _) => Target::Value,
        Form::Shift(_, _, _) => Target::Value,
        Form::Power(_, _) => Target::Value,
        Form::Order(_, _, _) => Target::Value,
        Form::Equal { .. } => Target::Value,
        Form::Both(_, _) => Target::Value,
        Form::Either(_, _) => Target::Value,
        Form::Choose(_, _, _) => Target::Value,
        Form::Concat(es) => Target::Concat(es.as_slice()),
        Form::Repeat(_, _) => Target::Value,
        Form::Inside(_, _) => Target::Value,
        Form::Cast(_) => Target::Value,
        Form::Clog2(_) => Target::Value,
        Form::Pattern(_) => Target::Value,
        Form::Call(_, _) => Target::Value,
        Form::Stream {
            reversed,
            slice,
            parts,
        } => Target::Stream(Stream {
            reversed: *reversed,
            slice: *slice,
            parts: parts.as_slice(),
        }),
    }
}
