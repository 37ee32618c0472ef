//! Enums that are parts of concatenated targets (IEEE 1800-2017 clauses 6.19.3 and 10.4).

ghost use Rattle.std.specs.Prelude.{◌≡◌, map};
ghost use Rattle.std.specs.List.{list_any};
ghost use Rattle.expr_type.specs.Targets as def;

use sv_types::{Expr, Form};
use type_kinds::is_enum;

// Whether one of several is an enum or a concatenation with one.
#[cycle(parts)]
fn any_has(es: &[Expr]) -> bool
    ensures { result ≡ list_any (λ b. b) (map def.has_enum es.now) }
{
    for e in es {
        if has_enum(e) {
            return true;
        }
    }
    false
}

// Whether an expression is an enum or a concatenation with one.
#[cycle(parts)]
fn has_enum(e: &Expr) -> bool
    ensures { result ≡ def.has_enum e.now }
{
    if is_enum(&e.of) {
        return true;
    }
    match &e.form {
        Form::Literal { .. } => false,
        Form::Fill(_) => false,
        Form::Constant(_) => false,
        Form::Signal(_) => false,
        Form::Local(_) => false,
        Form::Member(_, _) => false,
        Form::Index(_, _) => false,
        Form::Part { .. } => false,
        Form::Slide { .. } => false,
        Form::Unary(_, _) => false,
        Form::Reduce(_, _) => false,
        Form::Negate(_) => false,
        Form::Binary(_, _, _) => false,
        Form::Shift(_, _, _) => false,
        Form::Power(_, _) => false,
        Form::Order(_, _, _) => false,
        Form::Equal { .. } => false,
        Form::Both(_, _) => false,
        Form::Either(_, _) => false,
        Form::Choose(_, _, _) => false,
        Form::Concat(parts) => any_has(parts.as_slice()),
        Form::Repeat(_, _) => false,
        Form::Inside(_, _) => false,
        Form::Cast(_) => false,
        Form::Clog2(_) => false,
        Form::Pattern(_) => false,
        Form::Call(_, _) => false,
        Form::Stream { .. } => false,
    }
}

/// Whether an enum is a part of a concatenation, at any depth.
pub(crate) fn has_enum_part(e: &Expr) -> bool
    ensures { result ≡ def.has_enum_part e.now }
{
    !is_enum(&e.of) && has_enum(e)
}
