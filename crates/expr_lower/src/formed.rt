//! Expressions that are no select path, made of their lowered operands.

ghost use Rattle.std.specs.Prelude.{◌≡◌, ◌≤◌, ℕ, Bool, false, length, IfOk, OnOk};
ghost use Rattle.b4_core.specs.declared.operators.EqOp.TheVariants.{Wild};
ghost use Rattle.sv_types.specs.declared.expression.Form.TheVariants as forms;
ghost use Rattle.sv_types.specs.declared.expression.Form.{out-Form};
ghost use Rattle.sv_types.specs.Layouts.{layout, width_of};
ghost use Rattle.sv_types.specs.Operators.{parts_of};
ghost use Rattle.sv_types.specs.Expressions.{meaning};
ghost use Rattle.v_meaning.specs.Values as means;
ghost use Rattle.v_build.specs.Trees.{meanings};
ghost use Rattle.eval_parts.specs.Limits.{Fits};
ghost use Rattle.eval_parts.specs.Steps.{is_path};
ghost use Rattle.eval_parts.specs.Targets.{marks_of_formals, marks_of_parts};
ghost use Rattle.eval_forms.specs.Asked.{form_asked};
ghost use Rattle.eval_forms.specs.Callees.{formals_in, AllFunctionsFit};
ghost use Rattle.path_flatten.specs.Helping.{Grows};
ghost use Rattle.form_lower.specs.Places.{AreItems};
ghost use Rattle.expr_lower.specs.Leaves.{leaves, Each, IsLowered};
ghost use Rattle.expr_lower.specs.Lowering.{Combines, CombinesIn, CombinesAnywhere};

use crate::combining::combine;
use crate::insides::inside;
use crate::logarithms::clog2;
use crate::operands::{one, two};
use crate::specials::{Special, special_of};
use eval_forms::formals_of;
use form_lower::{call_named, cast, pattern, wild_equal};
use name_maps::function_text;
use pairs::both;
use path_flatten::Helpers;
use std::alloc::{AllocError, Global};
use sv_types::{Expr, Function};
use v_tree::{NameMap, VExpr, VExprs};

/// A cast of an operand.
fn cast_form(
    alloc: Global,
    e: &Expr,
    x: &Expr,
    parts: VExprs,
    helpers: &mut Helpers,
) -> Result<VExpr, AllocError>
    requires form { e.now.form ≡ forms.Cast x.now }
    requires operand { (meaning x.now).widest ≤ 4194304 }
    requires narrow { width_of e.now.of ≤ 4194304 }
    requires count { length parts ≡ 1 }
    ensures grows { OnOk result (Grows helpers.old helpers.new) }
    ensures combines { IfOk result (λ m. CombinesAnywhere helpers.new e.now (meanings parts) (means.meaning m)) }
{
    let made = cast(alloc, x, &e.of, one(parts), helpers)?;
    Ok(made)
}

/// `==?` or `!=?` of two operands.
fn wild_form(
    alloc: Global,
    e: &Expr,
    negated: bool,
    x: &Expr,
    y: &Expr,
    parts: VExprs,
    helpers: &mut Helpers,
) -> Result<VExpr, AllocError>
    requires form { e.now.form ≡ forms.Equal Wild negated x.now y.now }
    requires left { (meaning x.now).widest ≤ 4194304 }
    requires right { (meaning y.now).widest ≤ 4194304 }
    requires count { length parts ≡ 2 }
    ensures grows { OnOk result (Grows helpers.old helpers.new) }
    ensures combines { IfOk result (λ m. CombinesAnywhere helpers.new e.now (meanings parts) (means.meaning m)) }
{
    let operands = two(parts);
    let made = wild_equal(alloc, negated, x, y, operands.left, operands.right, helpers)?;
    Ok(made)
}

/// An assignment pattern of items.
fn pattern_form(
    alloc: Global,
    e: &Expr,
    items: &[Expr],
    width: u32,
    signed: bool,
    parts: VExprs,
    helpers: &mut Helpers,
) -> Result<VExpr, AllocError>
    requires form { e.now.form ≡ forms.Pattern items.now }
    requires some { 1 ≤ width_of e.now.of }
    requires narrow { width_of e.now.of ≤ 4194304 }
    requires items { AreItems (marks_of_parts (parts_of (layout e.now.of))) items.now (length parts) }
    ensures grows { OnOk result (Grows helpers.old helpers.new) }
    ensures combines { IfOk result (λ m. CombinesIn helpers.new e.now width signed (meanings parts) (means.meaning m)) }
{
    let made = pattern(alloc, &e.of, width, signed, items, parts, helpers)?;
    Ok(made)
}

/// A call of the function with this number.
fn call_form(
    alloc: Global,
    names: &NameMap,
    functions: &[Function],
    e: &Expr,
    f: u32,
    actuals: &[Expr],
    parts: VExprs,
    helpers: &mut Helpers,
) -> Result<VExpr, AllocError>
    requires functions { AllFunctionsFit functions.now }
    requires form { e.now.form ≡ forms.Call f actuals.now }
    requires items { AreItems (marks_of_formals (formals_in functions.now f)) actuals.now (length parts) }
    ensures grows { OnOk result (Grows helpers.old helpers.new) }
    ensures combines { IfOk result (λ m. (w : ℕ) (s : Bool) → Combines names.now functions.now helpers.new e.now w s (meanings parts) (means.meaning m)) }
{
    let name = function_text(alloc, names.functions.as_slice(), f);
    let (name, parts) = both(name, Ok(parts))?;
    let formals = formals_of(functions, f);
    let made = call_named(alloc, &e.of, name, formals, actuals, parts, helpers)?;
    Ok(made)
}

/// The target expression of an expression that is no select path, at a width and a sign, from those of its operands in order.
pub fn formed(
    alloc: Global,
    names: &NameMap,
    functions: &[Function],
    e: &Expr,
    width: u32,
    signed: bool,
    parts: VExprs,
    helpers: &mut Helpers,
) -> Result<VExpr, AllocError>
    requires functions { AllFunctionsFit functions.now }
    requires kind { is_path (out-Form e.now.form) ≡ false }
    requires built { Each IsLowered (leaves e.now) }
    requires fits { Fits (meaning e.now) (formals_in functions.now) width }
    requires count { length parts ≡ length (form_asked (layout e.now.of) (formals_in functions.now) width signed (out-Form e.now.form)) }
    ensures grows { OnOk result (Grows helpers.old helpers.new) }
    ensures combines { IfOk result (λ m. Combines names.now functions.now helpers.new e.now width signed (meanings parts) (means.meaning m)) }
{
    match special_of(e) {
        None => {
            let plain = combine(alloc, e, width, signed, parts)?;
            Ok(plain)
        }
        Some(
            Special::Wild {
                negated,
                left,
                right,
            },
        ) => {
            let equal = wild_form(alloc, e, negated, left, right, parts, helpers)?;
            Ok(equal)
        }
        Some(Special::Inside(x, choices)) => {
            let member = inside(alloc, e, x, choices, parts, helpers)?;
            Ok(member)
        }
        Some(Special::Cast(x)) => {
            let converted = cast_form(alloc, e, x, parts, helpers)?;
            Ok(converted)
        }
        Some(Special::Clog2(x)) => {
            let logarithm = clog2(alloc, functions, e, x, parts)?;
            Ok(logarithm)
        }
        Some(Special::Pattern(items)) => {
            let whole = pattern_form(alloc, e, items, width, signed, parts, helpers)?;
            Ok(whole)
        }
        Some(Special::Call(f, actuals)) => {
            let called = call_form(alloc, names, functions, e, f, actuals, parts, helpers)?;
            Ok(called)
        }
    }
}
