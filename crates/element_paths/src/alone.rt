//! Copies of select paths in which a local stands for an element of a signal.

ghost use Rattle.std.specs.Prelude.{◌≡◌, IfOk};
ghost use Rattle.element_paths.specs.Elements.{IsRebuilt, IsAlone, IsAloneForm};

use crate::elements::whole_signal;
use eval_parts::{Step, step_of};
use expr_copies::copy_expr;
use pairs::both;
use std::alloc::{AllocError, Global};
use sv_source::{Boxed, Spot, Text};
use sv_types::{Expr, Form};
use type_kinds::copy_type;

/// An expression of another form, with the type of this one.
fn rebuilt(alloc: Global, e: &Expr, form: Form) -> Result<Expr, AllocError>
    ensures { IfOk result (λ d. IsRebuilt e.now form d) }
{
    let (of, form) = both(copy_type(alloc, &e.of), Ok(form))?;
    Ok(Expr {
        of,
        spot: Spot {
            at: e.spot.at,
            place: e.spot.place,
            word: Text::new(alloc),
        },
        form,
    })
}

/// A copy of an index.
fn index_copy(alloc: Global, i: &Expr) -> Result<Boxed<Expr>, AllocError>
    ensures { IfOk result (λ c. c ≡ i.now) }
{
    let copy = copy_expr(alloc, i)?;
    Boxed::new(alloc, copy)
}

/// A path in an element alone.
#[cycle(alone)]
fn alone_box(alloc: Global, e: &Expr) -> Result<Boxed<Expr>, AllocError>
    ensures { IfOk result (IsAlone e.now) }
{
    let path = alone_path(alloc, e)?;
    Boxed::new(alloc, path)
}

/// The form of a path in an element alone.
#[cycle(alone)]
fn alone_form(alloc: Global, e: &Expr) -> Result<Form, AllocError>
    ensures { IfOk result (IsAloneForm e.now) }
{
    match step_of(e) {
        None => Ok(Form::Local(0)),
        Some(Step::Signal(_)) => Ok(Form::Local(0)),
        Some(Step::Local(_)) => Ok(Form::Local(0)),
        Some(Step::Member(from, k)) => Ok(Form::Member(alone_box(alloc, from)?, k)),
        Some(Step::Index(from, i)) => match whole_signal(from) {
            Some(_) => Ok(Form::Local(0)),
            None => {
                let from = alone_box(alloc, from);
                let (from, i) = both(from, index_copy(alloc, i))?;
                Ok(Form::Index(from, i))
            }
        },
        Some(Step::Part { from, left, right }) => Ok(Form::Part {
            from: alone_box(alloc, from)?,
            left,
            right,
        }),
        Some(
            Step::Slide {
                from,
                base,
                width,
                up,
            },
        ) => {
            let from = alone_box(alloc, from);
            let (from, base) = both(from, index_copy(alloc, base))?;
            Ok(Form::Slide {
                from,
                base,
                width,
                up,
            })
        }
    }
}

/// A path in the element of a signal that a select path goes on from: the same steps behind a local of the element's type. Of what
/// goes on from no such element it is some path. Or want of memory.
#[cycle(alone)]
pub fn alone_path(alloc: Global, e: &Expr) -> Result<Expr, AllocError>
    ensures { IfOk result (IsAlone e.now) }
{
    let form = alone_form(alloc, e)?;
    rebuilt(alloc, e, form)
}
