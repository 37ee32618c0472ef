//! Copies of expressions.

ghost use Rattle.std.specs.Prelude.{◌≡◌, IfOk};

use crate::leaves::{copy_bits, copy_spot, copy_value};
use std::alloc::{AllocError, Global};
use sv_source::{Boxed, Spot};
use sv_types::{Choice, Choices, Expr, Exprs, Form, SvType};
use type_kinds::copy_type;

#[cycle(copy)]
fn copy_exprs(alloc: Global, exprs: &[Expr]) -> Result<Exprs, AllocError>
    ensures { IfOk result (λ c. c ≡ exprs.now) }
{
    let mut made = Exprs::new(alloc);
    for expr in exprs {
        made.push(copy_expr(alloc, expr)?)?;
    }
    Ok(made)
}

#[cycle(copy)]
fn copy_boxed(alloc: Global, expr: &Expr) -> Result<Boxed<Expr>, AllocError>
    ensures { IfOk result (λ c. c ≡ expr.now) }
{
    let copy = copy_expr(alloc, expr)?;
    Boxed::new(alloc, copy)
}

#[cycle(copy)]
fn copy_choice(alloc: Global, choice: &Choice) -> Result<Choice, AllocError>
    ensures { IfOk result (λ c. c ≡ choice.now) }
{
    match choice {
        Choice::Value(value) => Ok(Choice::Value(copy_expr(alloc, value)?)),
        Choice::Range(low, high) => {
            let low = copy_expr(alloc, low);
            let (low, high) = pairs::both(low, copy_expr(alloc, high))?;
            Ok(Choice::Range(low, high))
        }
    }
}

#[cycle(copy)]
fn copy_choices(alloc: Global, choices: &[Choice]) -> Result<Choices, AllocError>
    ensures { IfOk result (λ c. c ≡ choices.now) }
{
    let mut made = Choices::new(alloc);
    for choice in choices {
        made.push(copy_choice(alloc, choice)?)?;
    }
    Ok(made)
}

#[cycle(copy)]
fn copy_form(alloc: Global, form: &Form) -> Result<Form, AllocError>
    ensures { IfOk result (λ c. c ≡ form.now) }
{
    match form {
        Form::Literal { bits, goes_on } => Ok(Form::Literal {
            bits: copy_bits(alloc, bits)?,
            goes_on: *goes_on,
        }),
        Form::Fill(bit) => Ok(Form::Fill(*bit)),
        Form::Constant(value) => Ok(Form::Constant(copy_value(alloc, value)?)),
        Form::Signal(n) => Ok(Form::Signal(*n)),
        Form::Local(n) => Ok(Form::Local(*n)),
        Form::Member(from, n) => Ok(Form::Member(copy_boxed(alloc, from.get())?, *n)),
        Form::Index(from, index) => {
            let from = copy_boxed(alloc, from.get());
            let (from, index) = pairs::both(from, copy_boxed(alloc, index.get()))?;
            Ok(Form::Index(from, index))
        }
        Form::Part { from, left, right } => Ok(Form::Part {
            from: copy_boxed(alloc, from.get())?,
            left: *left,
            right: *right,
        }),
        Form::Slide {
            from,
            base,
            width,
            up,
        } => {
            let from = copy_boxed(alloc, from.get());
            let (from, base) = pairs::both(from, copy_boxed(alloc, base.get()))?;
            Ok(Form::Slide {
                from,
                base,
                width: *width,
                up: *up,
            })
        }
        Form::Unary(op, of) => Ok(Form::Unary(*op, copy_boxed(alloc, of.get())?)),
        Form::Reduce(op, of) => Ok(Form::Reduce(*op, copy_boxed(alloc, of.get())?)),
        Form::Negate(of) => Ok(Form::Negate(copy_boxed(alloc, of.get())?)),
        Form::Binary(op, left, right) => {
            let left = copy_boxed(alloc, left.get());
            let (left, right) = pairs::both(left, copy_boxed(alloc, right.get()))?;
            Ok(Form::Binary(*op, left, right))
        }
        Form::Shift(op, left, right) => {
            let left = copy_boxed(alloc, left.get());
            let (left, right) = pairs::both(left, copy_boxed(alloc, right.get()))?;
            Ok(Form::Shift(*op, left, right))
        }
        Form::Power(left, right) => {
            let left = copy_boxed(alloc, left.get());
            let (left, right) = pairs::both(left, copy_boxed(alloc, right.get()))?;
            Ok(Form::Power(left, right))
        }
        Form::Order(op, left, right) => {
            let left = copy_boxed(alloc, left.get());
            let (left, right) = pairs::both(left, copy_boxed(alloc, right.get()))?;
            Ok(Form::Order(*op, left, right))
        }
        Form::Equal {
            op,
            negated,
            left,
            right,
        } => {
            let left = copy_boxed(alloc, left.get());
            let (left, right) = pairs::both(left, copy_boxed(alloc, right.get()))?;
            Ok(Form::Equal {
                op: *op,
                negated: *negated,
                left,
                right,
            })
        }
        Form::Both(left, right) => {
            let left = copy_boxed(alloc, left.get());
            let (left, right) = pairs::both(left, copy_boxed(alloc, right.get()))?;
            Ok(Form::Both(left, right))
        }
        Form::Either(left, right) => {
            let left = copy_boxed(alloc, left.get());
            let (left, right) = pairs::both(left, copy_boxed(alloc, right.get()))?;
            Ok(Form::Either(left, right))
        }
        Form::Choose(on, then, other) => {
            let on = copy_boxed(alloc, on.get());
            let then = copy_boxed(alloc, then.get());
            let arms = pairs::both(then, copy_boxed(alloc, other.get()));
            let (on, arms) = pairs::both(on, arms)?;
            Ok(Form::Choose(on, arms.0, arms.1))
        }
        Form::Concat(parts) => Ok(Form::Concat(copy_exprs(alloc, parts.as_slice())?)),
        Form::Repeat(count, parts) => {
            Ok(Form::Repeat(*count, copy_exprs(alloc, parts.as_slice())?))
        }
        Form::Inside(value, choices) => {
            let value = copy_boxed(alloc, value.get());
            let (value, choices) = pairs::both(value, copy_choices(alloc, choices.as_slice()))?;
            Ok(Form::Inside(value, choices))
        }
        Form::Cast(of) => Ok(Form::Cast(copy_boxed(alloc, of.get())?)),
        Form::Clog2(of) => Ok(Form::Clog2(copy_boxed(alloc, of.get())?)),
        Form::Pattern(items) => Ok(Form::Pattern(copy_exprs(alloc, items.as_slice())?)),
        Form::Call(function, actuals) => {
            Ok(Form::Call(*function, copy_exprs(alloc, actuals.as_slice())?))
        }
        Form::Stream {
            reversed,
            slice,
            parts,
        } => Ok(Form::Stream {
            reversed: *reversed,
            slice: *slice,
            parts: copy_exprs(alloc, parts.as_slice())?,
        }),
    }
}

// An expression of a type.
fn joined(of: SvType, spot: Spot, form: Form) -> Expr
    ensures { result ≡ record { of = of; spot = spot; form = form } }
{
    Expr { of, spot, form }
}

/// A copy of an expression, or want of memory.
#[cycle(copy)]
pub fn copy_expr(alloc: Global, expr: &Expr) -> Result<Expr, AllocError>
    ensures { IfOk result (λ c. c ≡ expr.now) }
{
    let form = copy_form(alloc, &expr.form);
    let (of, form) = pairs::both(copy_type(alloc, &expr.of), form)?;
    let spot = copy_spot(alloc, &expr.spot);
    let (spot, form) = pairs::both(spot, Ok(form))?;
    Ok(joined(of, spot, form))
}
