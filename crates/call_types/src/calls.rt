//! Calls of functions, with what is passed to them.

ghost use Rattle.std.specs.Prelude.{◌≡◌, IfOk};
ghost use Rattle.expr_type.specs.Answers.{source};
ghost use Rattle.expr_type.specs.Operators as operator;
ghost use Rattle.sv_types.specs.declared.expression.Form.TheVariants as F;

use expr_type::{Source, Valued};
use operand_types::{by_itself, copy_type};
use std::alloc::{AllocError, Global};
use sv_types::{Exprs, Form, SvType};

/// A call at its first token of the function at a place in the list of functions, with what is passed to it.
pub fn called(
    alloc: Global,
    text: Source<'_>,
    first: u32,
    place: u32,
    of: &SvType,
    actuals: Exprs,
) -> Result<Valued, AllocError>
    ensures value { IfOk result (λ v. v ≡ operator.by_itself (source text.entry) first of.now (F.Call place actuals)) }
    ensures of { IfOk result (λ v. v.expr.of ≡ of.now) }
{
    let of = copy_type(alloc, of)?;
    by_itself(alloc, text, first, of, Form::Call(place, actuals))
}
