//! The operands of expressions.

ghost use Rattle.std.specs.Prelude.{◌≡◌, ◌≤◌, ◌∷◌, [], map, flat_map, IfOk, OnOk, ◌++◌};
ghost use Rattle.sv_types.specs.declared.expression.Choice.{out-Choice};
ghost use Rattle.sv_types.specs.Expressions.{meaning};
ghost use Rattle.sv_types.specs.declared.expression.Form.{out-Form};
ghost use Rattle.sv_types.specs.Layouts.{layout, width_of};
ghost use Rattle.eval_parts.specs.Targets.{marks_of, marks_of_formals, AreNarrow};
ghost use Rattle.eval_forms.specs.Asked.{asked, alone_asked, bits_asked, compared_asked, assigned_asked, choice_asked, again_compared, form_asked};
ghost use Rattle.eval_forms.specs.Callees.{formals_in, AllFunctionsFit};
ghost use Rattle.eval_forms.specs.Narrow.{AllNarrowOperands, AllNarrowAt, ChoiceIsNarrow, AllChoicesNarrow};

use crate::asked::{Operand, again, alone, beside, bits, one, place, three, two};
use crate::callees::formals_of;
use eval_parts::{Places, own_sign, own_width, type_at};
use std::alloc::{AllocError, Global};
use sv_types::{Choice, Expr, Form, Function, width as width_of_type};

// Several expressions, each alone.
fn all_alone<'a>(alloc: Global, es: &'a [Expr]) -> Result<Vec<Operand<'a>>, AllocError>
    requires { AllNarrowOperands es.now }
    ensures { IfOk result (λ v. map asked v.items ≡ map alone_asked es.now) }
{
    let mut all = Vec::with_capacity(alloc, es.len())?;
    for e in es {
        all.push(alone(e))?;
    }
    Ok(all)
}

// What is assigned to places.
fn all_assigned<'a>(
    alloc: Global,
    places: &Places<'_>,
    es: &'a [Expr],
) -> Result<Vec<Operand<'a>>, AllocError>
    requires places { AreNarrow places.now }
    requires narrow { AllNarrowAt (marks_of places.now) es.now }
    ensures { IfOk result (λ v. map asked v.items ≡ assigned_asked (marks_of places.now) es.now) }
{
    let mut all = Vec::with_capacity(alloc, es.len())?;
    for (i, e) in es.iter().enumerate() {
        let Some(t) = type_at(places, i) else {
            return Ok(all);
        };
        all.push(bits(e, width_of_type(t).max(own_width(e)), own_sign(e)))?;
    }
    Ok(all)
}

// Adds a value, asked again, and what it is compared with.
fn push_compared<'a>(x: &'a Expr, y: &'a Expr, to: &mut Vec<Operand<'a>>) -> Result<(), AllocError>
    requires left { (meaning x.now).widest ≤ 4194304 }
    requires right { (meaning y.now).widest ≤ 4194304 }
    ensures { OnOk result (map asked to.new.items ≡ map asked to.old.items ++ again_compared x.now y.now) }
{
    to.push(again(x, y))?;
    to.push(beside(y, x, y))?;
    Ok(())
}

// Adds what an alternative of `inside` asks.
fn push_choice<'a>(
    x: &'a Expr,
    choice: &'a Choice,
    to: &mut Vec<Operand<'a>>,
) -> Result<(), AllocError>
    requires left { (meaning x.now).widest ≤ 4194304 }
    requires right { ChoiceIsNarrow choice.now }
    ensures { OnOk result (map asked to.new.items ≡ map asked to.old.items ++ choice_asked x.now (out-Choice choice.now)) }
{
    match choice {
        Choice::Value(v) => push_compared(x, v, to),
        Choice::Range(low, high) => {
            push_compared(x, low, to)?;
            push_compared(x, high, to)
        }
    }
}

// What `inside` asks.
fn inside<'a>(
    alloc: Global,
    x: &'a Expr,
    choices: &'a [Choice],
) -> Result<Vec<Operand<'a>>, AllocError>
    requires left { (meaning x.now).widest ≤ 4194304 }
    requires right { AllChoicesNarrow choices.now }
    ensures { IfOk result (λ v. map asked v.items ≡ alone_asked x.now ∷ flat_map (λ c. choice_asked x.now (out-Choice c)) choices.now) }
{
    let mut all = one(alloc, alone(x))?;
    for choice in choices {
        push_choice(x, choice, &mut all)?;
    }
    Ok(all)
}

/// The direct operands of an expression that is valued at a width and a sign, in the order in which they are valued, and what
/// is asked of each. A select path asks what it selects from for its place.
pub fn operands<'a>(
    alloc: Global,
    e: &'a Expr,
    width: u32,
    signed: bool,
    functions: &'a [Function],
) -> Result<Vec<Operand<'a>>, AllocError>
    requires functions { AllFunctionsFit functions.now }
    requires some { 1 ≤ width_of e.now.of }
    requires narrow { (meaning e.now).widest ≤ 4194304 }
    ensures { IfOk result (λ v. map asked v.items ≡ form_asked (layout e.now.of) (formals_in functions.now) width signed (out-Form e.now.form)) }
{
    match &e.form {
        Form::Literal { .. } => Ok(Vec::new(alloc)),
        Form::Fill(_) => Ok(Vec::new(alloc)),
        Form::Constant(_) => Ok(Vec::new(alloc)),
        Form::Signal(_) => Ok(Vec::new(alloc)),
        Form::Local(_) => Ok(Vec::new(alloc)),
        Form::Member(x, _) => one(alloc, place(x.get())),
        Form::Index(x, i) => two(alloc, place(x.get()), alone(i.get())),
        Form::Part { from, .. } => one(alloc, place(from.get())),
        Form::Slide { from, base, .. } => two(alloc, place(from.get()), alone(base.get())),
        Form::Unary(_, x) => one(alloc, bits(x.get(), width, signed)),
        Form::Reduce(_, x) => one(alloc, alone(x.get())),
        Form::Negate(x) => one(alloc, alone(x.get())),
        Form::Binary(_, x, y) => both(alloc, x.get(), y.get(), width, signed),
        Form::Shift(_, x, y) => two(alloc, bits(x.get(), width, signed), alone(y.get())),
        Form::Power(x, y) => two(alloc, bits(x.get(), width, signed), alone(y.get())),
        Form::Order(_, x, y) => compared(alloc, x.get(), y.get()),
        Form::Equal { left, right, .. } => compared(alloc, left.get(), right.get()),
        Form::Both(x, y) => two(alloc, alone(x.get()), alone(y.get())),
        Form::Either(x, y) => two(alloc, alone(x.get()), alone(y.get())),
        Form::Choose(z, x, y) => three(
            alloc,
            alone(z.get()),
            bits(x.get(), width, signed),
            bits(y.get(), width, signed),
        ),
        Form::Concat(es) => all_alone(alloc, es.as_slice()),
        Form::Repeat(_, es) => all_alone(alloc, es.as_slice()),
        Form::Inside(x, choices) => inside(alloc, x.get(), choices.as_slice()),
        Form::Cast(x) => one(alloc, alone(x.get())),
        Form::Clog2(x) => one(alloc, alone(x.get())),
        Form::Pattern(es) => all_assigned(alloc, &Places::Parts(&e.of), es.as_slice()),
        Form::Call(f, es) => called(alloc, functions, *f, es.as_slice()),
        Form::Stream { parts, .. } => all_alone(alloc, parts.as_slice()),
    }
}

// Both operands in their context.
fn both<'a>(
    alloc: Global,
    x: &'a Expr,
    y: &'a Expr,
    width: u32,
    signed: bool,
) -> Result<Vec<Operand<'a>>, AllocError>
    ensures { IfOk result (λ v. map asked v.items ≡ bits_asked x.now width signed ∷ bits_asked y.now width signed ∷ []) }
{
    two(alloc, bits(x, width, signed), bits(y, width, signed))
}

// Both sides of a comparison.
fn compared<'a>(alloc: Global, x: &'a Expr, y: &'a Expr) -> Result<Vec<Operand<'a>>, AllocError>
    requires left { (meaning x.now).widest ≤ 4194304 }
    requires right { (meaning y.now).widest ≤ 4194304 }
    ensures { IfOk result (λ v. map asked v.items ≡ compared_asked x.now y.now) }
{
    two(alloc, beside(x, x, y), beside(y, x, y))
}

// What a call passes.
fn called<'a>(
    alloc: Global,
    functions: &'a [Function],
    function: u32,
    es: &'a [Expr],
) -> Result<Vec<Operand<'a>>, AllocError>
    requires functions { AllFunctionsFit functions.now }
    requires narrow { AllNarrowOperands es.now }
    ensures { IfOk result (λ v. map asked v.items ≡ assigned_asked (marks_of_formals (formals_in functions.now function)) es.now) }
{
    all_assigned(alloc, &Places::Formals(formals_of(functions, function)), es)
}
