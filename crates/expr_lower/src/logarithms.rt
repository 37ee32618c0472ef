//! `$clog2` (IEEE 1800-2017 clause 20.8.1).

ghost use Rattle.std.specs.Prelude.{◌≡◌, ◌≤◌, ◌<◌, ◌-◌, false, [], ◌∷◌, List, length, IfOk};
ghost use Rattle.b4_core.specs.declared.bit.Bit4.TheVariants.{Zero, One, X};
ghost use Rattle.b4_core.specs.declared.operators.EqOp.TheVariants.{Logic, Case};
ghost use Rattle.b4_core.specs.declared.operators.OrdOp.TheVariants.{LessEqual};
ghost use Rattle.b4_core.specs.declared.operators.RedOp.TheVariants.{Xor};
ghost use Rattle.b4_core.specs.declared.operators.ShiftOp.TheVariants.{Left, Right};
ghost use Rattle.b4_core.specs.Vectors.{digits, ext, unknown};
ghost use Rattle.sv_types.specs.declared.expression.Form.TheVariants as forms;
ghost use Rattle.sv_types.specs.Operators.{clog2_of};
ghost use Rattle.sv_types.specs.Expressions.{meaning};
ghost use Rattle.v_tree.specs.declared.names.Helper.{Helper};
ghost use Rattle.v_meaning.specs.Values as means;
ghost use Rattle.v_build.specs.Trees.{meanings};
ghost use Rattle.eval_parts.specs.Limits.{FitsAlone};
ghost use Rattle.eval_forms.specs.Callees.{formals_in, AllFunctionsFit};
ghost use Rattle.expr_lower.specs.Lowering.{CombinesAnywhere};
ghost use Rattle.expr_lower.specs.Logarithms.{power, at_most_power, below_power, equals_power, lost, IsAtMost, LogSteps, IsLogarithm};

use crate::numbers::with_sign;
use b4_core::{Bit4, OrdOp, RedOp, ShiftOp, Vec4};
use eval_parts::{filled, own_sign, own_width};
use pairs::both;
use path_flatten::{copy_expr, number};
use path_steps::fixed_bits;
use std::alloc::{AllocError, Global};
use sv_types::{Expr, Function};
use v_build::{choose, compare, concatenation, either, literal, order, reduce, shift};
use v_tree::{VExpr, VExprs};

/// How many bits the target orders at most.
const MOST_ORDERED: u32 = 128;

/// One bit as a number.
fn bit(alloc: Global, b: Bit4) -> Result<VExpr, AllocError>
    ensures { IfOk result (λ m. means.meaning m ≡ means.literal (b ∷ [])) }
{
    let bits = Vec4::from_slice(alloc, &[b])?;
    Ok(literal(bits))
}

/// `1'b1 << k`
fn power_of_two(alloc: Global, k: u32) -> Result<VExpr, AllocError>
    ensures { IfOk result (λ m. means.meaning m ≡ power k) }
{
    let one = bit(alloc, Bit4::One);
    let (one, by) = both(one, number(alloc, 32, k))?;
    shift(alloc, ShiftOp::Left, one, by)
}

/// `y <= (1'b1 << k)`
fn ordered(alloc: Global, y: &VExpr, k: u32) -> Result<VExpr, AllocError>
    ensures { IfOk result (λ m. means.meaning m ≡ at_most_power (means.meaning y.now) k) }
{
    let left = copy_expr(alloc, y);
    let (left, right) = both(left, power_of_two(alloc, k))?;
    order(alloc, OrdOp::LessEqual, left, right)
}

/// `y >> k`
fn quotient(alloc: Global, y: &VExpr, k: u32) -> Result<VExpr, AllocError>
    ensures { IfOk result (λ m. means.meaning m ≡ means.shift Right (means.meaning y.now) (means.literal (digits 32 k))) }
{
    let copy = copy_expr(alloc, y);
    let (copy, by) = both(copy, number(alloc, 32, k))?;
    shift(alloc, ShiftOp::Right, copy, by)
}

/// `(y >> k) == 1'b0`
fn below(alloc: Global, y: &VExpr, k: u32) -> Result<VExpr, AllocError>
    ensures { IfOk result (λ m. means.meaning m ≡ below_power (means.meaning y.now) k) }
{
    let high = quotient(alloc, y, k);
    let (high, zero) = both(high, bit(alloc, Bit4::Zero))?;
    compare(alloc, false, false, high, zero)
}

/// `y == (1'b1 << k)`
fn equal(alloc: Global, y: &VExpr, k: u32) -> Result<VExpr, AllocError>
    ensures { IfOk result (λ m. means.meaning m ≡ equals_power (means.meaning y.now) k) }
{
    let copy = copy_expr(alloc, y);
    let (copy, power) = both(copy, power_of_two(alloc, k))?;
    compare(alloc, false, false, copy, power)
}

/// `((y >> k) == 1'b0) || (y == (1'b1 << k))`
fn below_or_equal(alloc: Global, y: &VExpr, k: u32) -> Result<VExpr, AllocError>
    ensures { IfOk result (λ m. means.meaning m ≡ means.either (below_power (means.meaning y.now) k) (equals_power (means.meaning y.now) k)) }
{
    let less = below(alloc, y, k);
    let (less, same) = both(less, equal(alloc, y, k))?;
    either(alloc, less, same)
}

/// Whether an operand of so many bits is at most a power of two.
fn at_most(alloc: Global, y: &VExpr, width: u32, k: u32) -> Result<VExpr, AllocError>
    requires { k < width }
    ensures { IfOk result (λ m. IsAtMost (means.meaning y.now) width k (means.meaning m)) }
{
    if width <= MOST_ORDERED {
        let test = ordered(alloc, y, k)?;
        Ok(test)
    } else {
        let wide = below_or_equal(alloc, y, k)?;
        Ok(wide)
    }
}

/// The least of the powers of two from one to another that an operand of so many bits isn't above, or else the last one, by
/// halves: `(y <= (1'b1 << middle)) ? lower : upper`.
fn least_power(
    alloc: Global,
    y: &VExpr,
    width: u32,
    from: u32,
    to: u32,
) -> Result<VExpr, AllocError>
    requires order { from ≤ to }
    requires few { to ≤ width }
    ensures { IfOk result (λ m. LogSteps (means.meaning y.now) width (to - from) from (means.meaning m)) }
{
    if from == to {
        let only = number(alloc, 32, from)?;
        return Ok(only);
    }
    let middle = from + (to - from) / 2;
    let test = at_most(alloc, y, width, middle);
    let lower = least_power(alloc, y, width, from, middle);
    let arms = both(lower, least_power(alloc, y, width, middle + 1, to));
    let (test, arms) = both(test, arms)?;
    let made = choose(alloc, test, arms.0, arms.1)?;
    Ok(made)
}

/// `(^y) === 1'bx`
fn is_lost(alloc: Global, y: &VExpr) -> Result<VExpr, AllocError>
    ensures { IfOk result (λ m. means.meaning m ≡ lost (means.meaning y.now)) }
{
    let copy = copy_expr(alloc, y)?;
    let parity = reduce(alloc, RedOp::Xor, copy);
    let (parity, unknown) = both(parity, bit(alloc, Bit4::X))?;
    compare(alloc, true, false, parity, unknown)
}

/// 32 bits that are x.
fn unknown_word(alloc: Global) -> Result<VExpr, AllocError>
    ensures { IfOk result (λ m. means.meaning m ≡ means.literal (unknown 32)) }
{
    let bits = filled(alloc, 32, Bit4::X)?;
    Ok(literal(bits))
}

/// `$clog2` of an unsigned operand of so many bits that stands in braces: x if it isn't known.
fn logarithm(alloc: Global, y: VExpr, width: u32) -> Result<VExpr, AllocError>
    ensures { IfOk result (λ m. IsLogarithm (means.meaning y) width (means.meaning m)) }
{
    let test = is_lost(alloc, &y);
    let arms = both(unknown_word(alloc), least_power(alloc, &y, width, 0, width));
    let (test, arms) = both(test, arms)?;
    choose(alloc, test, arms.0, arms.1)
}

/// `$clog2` of these bits, as a number.
fn fixed_logarithm(alloc: Global, v: &Vec4) -> Result<VExpr, AllocError>
    requires { length v.now ≤ 4194304 }
    ensures { IfOk result (λ m. means.meaning m ≡ means.literal (ext 32 false (clog2_of v.now))) }
{
    let bits = eval_parts::clog2(alloc, v, 32, false)?;
    Ok(literal(bits))
}

/// `$clog2` from its operand: a number where that is made of numbers and constants alone.
pub fn clog2(
    alloc: Global,
    functions: &[Function],
    e: &Expr,
    x: &Expr,
    parts: VExprs,
) -> Result<VExpr, AllocError>
    requires functions { AllFunctionsFit functions.now }
    requires form { e.now.form ≡ forms.Clog2 x.now }
    requires fits { FitsAlone (meaning x.now) (formals_in functions.now) }
    requires count { length parts ≡ 1 }
    ensures { IfOk result (λ m. (hs : List Helper) → CombinesAnywhere hs e.now (meanings parts) (means.meaning m)) }
{
    match fixed_bits(alloc, functions, x)? {
        Some(fixed) => {
            let number = fixed_logarithm(alloc, &fixed)?;
            let constant = with_sign(alloc, own_sign(e), number)?;
            Ok(constant)
        }
        None => {
            let bits = logarithm(alloc, concatenation(parts), own_width(x))?;
            let made = with_sign(alloc, own_sign(e), bits)?;
            Ok(made)
        }
    }
}
