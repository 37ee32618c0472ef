//! The value of a form from the values of its operands.

ghost use Rattle.std.specs.Prelude.{IfOk};
ghost use Rattle.eval_forms.specs.Asked.{Operands, Combines};
ghost use Rattle.eval_forms.specs.Kinds.{IsOperator};

use crate::assigned::assigned_bits;
use crate::choices::tests;
use b4_core::{Vec4, binary, both, either, negate, order, power, reduce, shift, truth, unary};
use eval_parts::{
    Places, are_signed, chosen, clog2, converted, equality_bit, extended, filled, in_context,
    literal, one_bit, own_sign, repeated_in_context, stream_in_context,
};
use std::alloc::{AllocError, Global};
use sv_types::{Expr, Form, bits_of};

// No bits.
fn nothing(alloc: Global) -> Vec4 {
    Vec4::from_vec(Vec::new(alloc))
}

/// The value of an expression that is neither a select path nor a call, at a width and a sign, from the values of its operands
/// in order, as they were asked.
pub fn combine(
    alloc: Global,
    e: &Expr,
    width: u32,
    signed: bool,
    values: &[Vec4],
) -> Result<Vec4, AllocError>
    requires kind { IsOperator e.now }
    requires operands { Operands e.now width signed values.now }
    ensures { IfOk result (λ r. Combines e.now width signed values.now r) }
{
    match &e.form {
        Form::Literal { bits, goes_on } => { Ok(literal(alloc, bits, *goes_on, width, signed)?) }
        Form::Fill(b) => Ok(filled(alloc, width, *b)?),
        Form::Constant(v) => {
            let held = bits_of(alloc, &e.of, v)?;
            Ok(extended(alloc, &held, width, signed)?)
        }
        Form::Signal(_) => Ok(nothing(alloc)),
        Form::Local(_) => Ok(nothing(alloc)),
        Form::Member(_, _) => Ok(nothing(alloc)),
        Form::Index(_, _) => Ok(nothing(alloc)),
        Form::Part { .. } => Ok(nothing(alloc)),
        Form::Slide { .. } => Ok(nothing(alloc)),
        Form::Unary(op, _) => Ok(unary(alloc, *op, &values[0])?),
        Form::Reduce(op, _) => Ok(one_bit(alloc, reduce(*op, &values[0]), width, signed)?),
        Form::Negate(_) => Ok(one_bit(alloc, negate(truth(&values[0])), width, signed)?),
        Form::Binary(op, _, _) => Ok(binary(alloc, *op, &values[0], &values[1], signed)?),
        Form::Shift(op, _, _) => Ok(shift(alloc, *op, &values[0], &values[1], signed)?),
        Form::Power(_, y) => {
            let y_signed = own_sign(y.get());
            Ok(power(alloc, &values[0], &values[1], signed, y_signed)?)
        }
        Form::Order(op, x, y) => {
            let both_signed = are_signed(x.get(), y.get());
            let bit = order(*op, &values[0], &values[1], both_signed);
            Ok(one_bit(alloc, bit, width, signed)?)
        }
        Form::Equal { op, negated, .. } => {
            let bit = equality_bit(*op, *negated, &values[0], &values[1]);
            Ok(one_bit(alloc, bit, width, signed)?)
        }
        Form::Both(_, _) => {
            let bit = both(truth(&values[0]), truth(&values[1]));
            Ok(one_bit(alloc, bit, width, signed)?)
        }
        Form::Either(_, _) => {
            let bit = either(truth(&values[0]), truth(&values[1]));
            Ok(one_bit(alloc, bit, width, signed)?)
        }
        Form::Choose(_, _, _) => {
            let left = Vec4::from_slice(alloc, values[1].as_slice())?;
            let right = Vec4::from_slice(alloc, values[2].as_slice())?;
            Ok(chosen(alloc, truth(&values[0]), left, right)?)
        }
        Form::Concat(_) => Ok(in_context(alloc, values, width, signed)?),
        Form::Repeat(n, _) => Ok(repeated_in_context(alloc, *n, values, width, signed)?),
        Form::Inside(x, choices) => {
            let tested = tests(alloc, x.get(), choices.as_slice(), &values[1..])?;
            Ok(one_bit(alloc, truth(&tested), width, signed)?)
        }
        Form::Cast(x) => {
            let from_signed = own_sign(x.get());
            Ok(converted(alloc, &e.of, &values[0], from_signed, width, signed)?)
        }
        Form::Clog2(_) => Ok(clog2(alloc, &values[0], width, signed)?),
        Form::Pattern(es) => {
            let parts = assigned_bits(alloc, &Places::Parts(&e.of), es.as_slice(), values)?;
            Ok(in_context(alloc, &parts, width, signed)?)
        }
        Form::Call(_, _) => Ok(nothing(alloc)),
        Form::Stream {
            reversed,
            slice,
            ..
        } => Ok(stream_in_context(alloc, *reversed, *slice, values, width)?),
    }
}
