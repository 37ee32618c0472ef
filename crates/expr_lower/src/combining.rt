//! The target expression of a form, made of those of its operands.

ghost use Rattle.std.specs.Prelude.{◌≡◌, ◌≤◌, false, max, length, IfOk};
ghost use Rattle.b4_core.specs.declared.operators.EqOp.TheVariants.{Wild};
ghost use Rattle.sv_types.specs.Meanings.{wide};
ghost use Rattle.expr_lower.specs.Numbers.{written_bits, IsExact};
ghost use Rattle.sv_types.specs.declared.expression.Form.{out-Form};
ghost use Rattle.sv_types.specs.Expressions.{meaning};
ghost use Rattle.v_meaning.specs.Values as means;
ghost use Rattle.v_build.specs.Trees.{meanings};
ghost use Rattle.eval_parts.specs.Steps.{is_path};
ghost use Rattle.expr_lower.specs.Leaves.{leaves, Each, IsLowered};
ghost use Rattle.expr_lower.specs.Lowering.{CombinesAll, AreParts};
ghost use Rattle.expr_lower.specs.Specials.{is_special};

use crate::numbers::{number, with_sign};
use crate::operands::{one, three, two};
use b4_core::{EqOp, Vec4};
use eval_parts::{extended, filled, own_sign, own_width};
use std::alloc::{AllocError, Global};
use sv_types::{Expr, Form, bits_of};
use v_build as build;
use v_tree::{VExpr, VExprs};

/// The bits of a literal in its context: one whose first digit is x or z goes on with it.
fn written(
    alloc: Global,
    e: &Expr,
    bits: &Vec4,
    goes_on: bool,
    width: u32,
) -> Result<Vec4, AllocError>
    requires { (meaning e.now).widest ≤ 4194304 }
    ensures { IfOk result (λ v. v ≡ written_bits goes_on (max width (wide (meaning e.now))) bits.now) }
{
    if goes_on {
        extended(alloc, bits, width.max(own_width(e)), true)
    } else {
        Vec4::from_slice(alloc, bits.as_slice())
    }
}

/// Whether an equality is `===`.
fn is_exact(op: EqOp) -> bool
    requires { op ≡ Wild → ⊥ }
    ensures { IsExact op result }
{
    match op {
        EqOp::Logic => false,
        EqOp::Case => true,
        EqOp::Wild => unreachable!(),
    }
}

/// The target expression of an expression that is no select path, at a width and a sign, from those of its operands in order.
pub fn combine(
    alloc: Global,
    e: &Expr,
    width: u32,
    signed: bool,
    parts: VExprs,
) -> Result<VExpr, AllocError>
    requires kind { is_path (out-Form e.now.form) ≡ false }
    requires built { Each IsLowered (leaves e.now) }
    requires plain { is_special (out-Form e.now.form) ≡ false }
    requires narrow { (meaning e.now).widest ≤ 4194304 }
    requires count { AreParts e.now width signed (length parts) }
    ensures { IfOk result (λ m. CombinesAll e.now width signed (meanings parts) (means.meaning m)) }
{
    match &e.form {
        Form::Literal { bits, goes_on } => {
            let value = written(alloc, e, bits, *goes_on, width)?;
            let plain = number(alloc, value)?;
            let literal = with_sign(alloc, own_sign(e), plain)?;
            Ok(literal)
        }
        Form::Fill(b) => {
            let bits = filled(alloc, width, *b)?;
            let fill = number(alloc, bits)?;
            Ok(fill)
        }
        Form::Constant(v) => {
            let bits = bits_of(alloc, &e.of, v)?;
            let plain = number(alloc, bits)?;
            let constant = with_sign(alloc, own_sign(e), plain)?;
            Ok(constant)
        }
        Form::Unary(op, _) => {
            let unary = build::unary(alloc, *op, one(parts))?;
            Ok(unary)
        }
        Form::Reduce(op, _) => {
            let reduced = build::reduce(alloc, *op, one(parts))?;
            Ok(reduced)
        }
        Form::Negate(_) => {
            let negated = build::negate(alloc, one(parts))?;
            Ok(negated)
        }
        Form::Binary(op, _, _) => {
            let both = two(parts);
            let binary = build::binary(alloc, *op, both.left, both.right)?;
            Ok(binary)
        }
        Form::Shift(op, _, _) => {
            let both = two(parts);
            let shifted = build::shift(alloc, *op, both.left, both.right)?;
            Ok(shifted)
        }
        Form::Power(_, _) => {
            let both = two(parts);
            let power = build::power(alloc, both.left, both.right)?;
            Ok(power)
        }
        Form::Order(op, _, _) => {
            let both = two(parts);
            let ordered = build::order(alloc, *op, both.left, both.right)?;
            Ok(ordered)
        }
        Form::Equal { op, negated, .. } => {
            let both = two(parts);
            let exact = is_exact(*op);
            let equal = build::compare(alloc, exact, *negated, both.left, both.right)?;
            Ok(equal)
        }
        Form::Both(_, _) => {
            let both = two(parts);
            let conjunction = build::both(alloc, both.left, both.right)?;
            Ok(conjunction)
        }
        Form::Either(_, _) => {
            let both = two(parts);
            let disjunction = build::either(alloc, both.left, both.right)?;
            Ok(disjunction)
        }
        Form::Choose(_, _, _) => {
            let all = three(parts);
            let chosen = build::choose(alloc, all.first, all.rest.left, all.rest.right)?;
            Ok(chosen)
        }
        Form::Concat(_) => Ok(build::concatenation(parts)),
        Form::Repeat(n, _) => Ok(build::repetition(*n, parts)),
        Form::Signal(_) => unreachable!(),
        Form::Local(_) => unreachable!(),
        Form::Member(_, _) => unreachable!(),
        Form::Index(_, _) => unreachable!(),
        Form::Part { .. } => unreachable!(),
        Form::Slide { .. } => unreachable!(),
        Form::Inside(_, _) => unreachable!(),
        Form::Cast(_) => unreachable!(),
        Form::Clog2(_) => unreachable!(),
        Form::Pattern(_) => unreachable!(),
        Form::Call(_, _) => unreachable!(),
        Form::Stream { .. } => unreachable!(),
    }
}
