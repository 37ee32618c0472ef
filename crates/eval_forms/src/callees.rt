//! The functions that calls name.

ghost use Rattle.std.specs.Prelude.{◌≡◌, map};
ghost use Rattle.sv_types.specs.Functions.{parameter};
ghost use Rattle.eval_parts.specs.Targets.{AllNarrow};
ghost use Rattle.eval_forms.specs.Callees.{formals_in, AllFunctionsFit};
ghost use Rattle.eval_forms.specs.Kinds.{IsCallOf};

use sv_types::{Expr, Form, Formal, Function};

/// The formals of the function with a number; none where there is no such function.
#[tactic(auto, using(crate::proofs::Formals::formals))]
pub fn formals_of(functions: &[Function], function: u32) -> &[Formal]
    requires { AllFunctionsFit functions.now }
    ensures value { map parameter result.now ≡ formals_in functions.now function }
    ensures narrow { AllNarrow result.now }
{
    if (function as usize) < functions.len() {
        functions[function as usize].formals.as_slice()
    } else {
        &[]
    }
}

/// The place of the function that an expression calls, if it is a call.
#[tactic(auto, using(crate::proofs::Uncalled::uncalled))]
pub fn call_of(e: &Expr) -> Option<u32>
    ensures { IsCallOf result e.now }
{
    match &e.form {
        Form::Literal { .. } => None,
        Form::Fill(_) => None,
        Form::Constant(_) => None,
        Form::Signal(_) => None,
        Form::Local(_) => None,
        Form::Member(_, _) => None,
        Form::Index(_, _) => None,
        Form::Part { .. } => None,
        Form::Slide { .. } => None,
        Form::Unary(_, _) => None,
        Form::Reduce(_, _) => None,
        Form::Negate(_) => None,
        Form::Binary(_, _, _) => None,
        Form::Shift(_, _, _) => None,
        Form::Power(_, _) => None,
        Form::Order(_, _, _) => None,
        Form::Equal { .. } => None,
        Form::Both(_, _) => None,
        Form::Either(_, _) => None,
        Form::Choose(_, _, _) => None,
        Form::Concat(_) => None,
        Form::Repeat(_, _) => None,
        Form::Inside(_, _) => None,
        Form::Cast(_) => None,
        Form::Clog2(_) => None,
        Form::Pattern(_) => None,
        Form::Call(f, _) => Some(*f),
        Form::Stream { .. } => None,
    }
}
