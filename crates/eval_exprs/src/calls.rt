//! Calls of functions (IEEE 1800-2017 clause 13.4), as expressions and statements make them.

ghost use Rattle.std.specs.Prelude.{◌≡◌, ℕ, List, Some};
ghost use Rattle.sv_types.specs.declared.expression.Expr.{Expr};
ghost use Rattle.sv_types.specs.declared.expression.Form.TheVariants as V;
ghost use Rattle.eval_forms.specs.Kinds.{IsCallOf};
ghost use Rattle.eval_exprs.specs.Calls.{CallsRun, CallOperands, ResultGives};
ghost use Rattle.eval_exprs.specs.Held.{around, formals};

use crate::held::Held;
use b4_core::Vec4;
use eval_forms::{assigned_bits, formals_of};
use eval_parts::{Halt, Places};
use std::alloc::Global;
use sv_types::{Expr, Form, Items};

/// Vectors in order.
pub type Vectors = Items<Vec4>;

/// A call that is to be run.
#[derive(Drop)]
pub struct Call {
    /// The place of the function or task in the list of functions.
    pub function: u32,
    /// The bits of what is passed to its formals, in order.
    pub passed: Vectors,
    /// How many statements may run, if there is a limit.
    pub left: Option<u64>,
}

/// What a call gave.
#[derive(Drop)]
pub struct Called {
    /// The bits of the result.
    pub result: Vec4,
    /// The bits that the formals held at the end, in order.
    pub finals: Vectors,
    /// How many statements may still run, if there is a limit.
    pub left: Option<u64>,
}

// What a call passes; nothing where the expression is no call.
fn actuals_of(e: &Expr) -> &[Expr]
    ensures { (f : ℕ) (es : List Expr) → e.now.form ≡ V.Call f es → result.now ≡ es }
{
    match &e.form {
        Form::Call(_, es) => es.as_slice(),
        _ => &[],
    }
}

/// The result of the function that an expression calls, from the values of its operands in order.
pub fn result_of<C: Fn(Call) -> Result<Called, Halt>>(
    alloc: Global,
    calls: &C,
    held: Held<'_>,
    e: &Expr,
    function: u32,
    values: &[Vec4],
    budget: &mut Option<u64>,
) -> Result<Vec4, Halt>
    requires calls { CallsRun (C.IsAlwaysCallable calls.now) (C.post calls.now) held.scope }
    requires call { IsCallOf (Some function) e.now }
    requires operands { CallOperands e.now function (formals held.scope) values.now }
    ensures { ResultGives result e.now function held.entry values.now budget.old budget.new }
{
    let places = Places::Formals(formals_of(held.scope.functions, function));
    let passed = assigned_bits(alloc, &places, actuals_of(e), values)?;
    let Called { result, left, .. } = calls(Call {
        function,
        passed: Vectors::from_vec(passed),
        left: *budget,
    })?;
    *budget = left;
    Ok(result)
}
