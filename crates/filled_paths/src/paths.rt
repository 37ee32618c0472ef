//! Numbers in place of indices (IEEE 1800-2017 clauses 7.4.5 and 11.5.1).

ghost use Rattle.std.specs.Prelude.{◌≡◌, Ok, IfOk};
ghost use Rattle.filled_paths.specs.Filling.{IsLiteralOf};
ghost use Rattle.filled_paths.specs.Numbers.{Fills, IsIndexMade, IsMemberMade, IsPartMade, IsSlideMade};

use b4_core::Vec4;
use eval_parts::{Step, step_of};
use expr_copies::copy_expr;
use std::alloc::{AllocError, Global};
use sv_source::{Boxed, Spot};
use sv_types::{Expr, Form};
use type_kinds::copy_type;

/// An expression of another form, with the type of one that stands there.
fn remade(alloc: Global, e: &Expr, form: Form) -> Result<Expr, AllocError>
    ensures of { IfOk result (λ f. f.of ≡ e.now.of) }
    ensures form { IfOk result (λ f. f.form ≡ form) }
{
    let (of, form) = pairs::both(copy_type(alloc, &e.of), Ok(form))?;
    let (word, form) = pairs::both(e.spot.word.copy(alloc), Ok(form))?;
    let spot = Spot {
        at: e.spot.at,
        place: e.spot.place,
        word,
    };
    Ok(Expr { of, spot, form })
}

/// A number with these bits, of the type of an index.
fn literal(alloc: Global, i: &Expr, bits: &Vec4) -> Result<Expr, AllocError>
    ensures { IfOk result (IsLiteralOf i.now bits.now) }
{
    let bits = Vec4::from_slice(alloc, bits.as_slice())?;
    remade(
        alloc,
        i,
        Form::Literal {
            bits,
            goes_on: false,
        },
    )
}

/// A member, as one that stands there, of another expression.
fn member(
    alloc: Global,
    e: &Expr,
    from: Result<Expr, AllocError>,
    k: u32,
) -> Result<Expr, AllocError>
    ensures { IfOk result (IsMemberMade e.now from k) }
{
    let from = Boxed::new(alloc, from?)?;
    remade(alloc, e, Form::Member(from, k))
}

/// A part-select with constant bounds, as one that stands there, of another expression.
fn part(
    alloc: Global,
    e: &Expr,
    from: Result<Expr, AllocError>,
    left: i64,
    right: i64,
) -> Result<Expr, AllocError>
    ensures { IfOk result (IsPartMade e.now from left right) }
{
    let from = Boxed::new(alloc, from?)?;
    remade(alloc, e, Form::Part { from, left, right })
}

/// What is selected from and an index, in boxes.
fn boxed(
    alloc: Global,
    from: Result<Expr, AllocError>,
    i: Result<Expr, AllocError>,
) -> Result<(Boxed<Expr>, Boxed<Expr>), AllocError>
    ensures { IfOk result (λ both. (from ≡ Ok both.0) × (i ≡ Ok both.1)) }
{
    let (from, i) = pairs::both(from, i)?;
    let from = Boxed::new(alloc, from);
    pairs::both(from, Boxed::new(alloc, i))
}

/// An element by an index, as one that stands there.
fn element(
    alloc: Global,
    e: &Expr,
    from: Result<Expr, AllocError>,
    i: Result<Expr, AllocError>,
) -> Result<Expr, AllocError>
    ensures { IfOk result (IsIndexMade e.now from i) }
{
    let (from, i) = boxed(alloc, from, i)?;
    remade(alloc, e, Form::Index(from, i))
}

/// A part-select by an index, as one that stands there.
fn slide(
    alloc: Global,
    e: &Expr,
    from: Result<Expr, AllocError>,
    base: Result<Expr, AllocError>,
    width: u32,
    up: bool,
) -> Result<Expr, AllocError>
    ensures { IfOk result (IsSlideMade e.now from base width up) }
{
    let (from, base) = boxed(alloc, from, base)?;
    remade(
        alloc,
        e,
        Form::Slide {
            from,
            base,
            width,
            up,
        },
    )
}

/// A copy of a select path with a number of these bits in place of the index before which so many stand, from the last step on. Or
/// want of memory.
pub fn with_literal(alloc: Global, e: &Expr, at: usize, bits: &Vec4) -> Result<Expr, AllocError>
    ensures { IfOk result (Fills e.now at bits.now) }
{
    match step_of(e) {
        None => copy_expr(alloc, e),
        Some(Step::Signal(_)) => copy_expr(alloc, e),
        Some(Step::Local(_)) => copy_expr(alloc, e),
        Some(Step::Member(from, k)) => {
            let from = with_literal(alloc, from, at, bits);
            member(alloc, e, from, k)
        }
        Some(Step::Part { from, left, right }) => {
            let from = with_literal(alloc, from, at, bits);
            part(alloc, e, from, left, right)
        }
        Some(Step::Index(from, i)) => {
            if at == 0 {
                let from = copy_expr(alloc, from);
                element(alloc, e, from, literal(alloc, i, bits))
            } else {
                let from = with_literal(alloc, from, at - 1, bits);
                element(alloc, e, from, copy_expr(alloc, i))
            }
        }
        Some(
            Step::Slide {
                from,
                base,
                width,
                up,
            },
        ) => {
            if at == 0 {
                let from = copy_expr(alloc, from);
                slide(alloc, e, from, literal(alloc, base, bits), width, up)
            } else {
                let from = with_literal(alloc, from, at - 1, bits);
                slide(alloc, e, from, copy_expr(alloc, base), width, up)
            }
        }
    }
}
