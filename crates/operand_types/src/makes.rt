//! Typed expressions with what stands around them in view.

ghost use Rattle.std.specs.Prelude.{◌≡◌, ◌≤◌, IfOk, false};
ghost use Rattle.expr_type.specs.Answers.{Gives, source};
ghost use Rattle.expr_type.specs.Operators as operator;
ghost use Rattle.sv_types.specs.Layouts.{width_of};

use crate::operands::allowed_in;
use crate::spots::spot_at;
use expr_type::{Halt, Source, Valued};
use std::alloc::{AllocError, Global};
use sv_source::{Items, Spot};
use sv_types::{Expr, Form, SvType, width};

/// What an operator makes of a type, a form and the operators in it.
#[derive(Drop)]
pub struct Parts {
    /// The type.
    pub of: SvType,
    /// The form.
    pub form: Form,
    /// The operators that do arithmetic at the width of the context.
    pub arithmetic: Items<u32>,
}

fn at_spot(first: u32, parts: Parts, spot: Spot) -> Valued
    ensures { result ≡ record { first = first; begins = first; is_unsized = false; expr = record { of = parts.of; spot = spot; form = parts.form }; arithmetic = parts.arithmetic } }
{
    let Parts {
        of,
        form,
        arithmetic,
    } = parts;
    Valued {
        first,
        begins: first,
        is_unsized: false,
        expr: Expr { of, spot, form },
        arithmetic,
    }
}

/// An expression that begins with a token.
pub fn valued(
    alloc: Global,
    text: Source<'_>,
    first: u32,
    parts: Parts,
) -> Result<Valued, AllocError>
    ensures value { IfOk result (λ v. v ≡ operator.valued (source text.entry) first parts.of parts.form parts.arithmetic) }
    ensures of { IfOk result (λ v. v.expr.of ≡ parts.of) }
{
    match spot_at(alloc, text, first) {
        Ok(spot) => Ok(at_spot(first, parts, spot)),
        Err(want) => Err(want),
    }
}

/// An expression that begins with a token and whose operands are valued alone.
pub fn by_itself(
    alloc: Global,
    text: Source<'_>,
    first: u32,
    of: SvType,
    form: Form,
) -> Result<Valued, AllocError>
    ensures value { IfOk result (λ v. v ≡ operator.by_itself (source text.entry) first of form) }
    ensures of { IfOk result (λ v. v.expr.of ≡ of) }
{
    let arithmetic = Items::new(alloc);
    valued(
        alloc,
        text,
        first,
        Parts {
            of,
            form,
            arithmetic,
        },
    )
}

/// An expression whose operands take the context: in one of its own width no arithmetic may be too wide (E502).
#[tactic(auto, using(crate::proofs::Allowing::allowed))]
pub fn in_context(alloc: Global, text: Source<'_>, first: u32, parts: Parts) -> Result<Valued, Halt>
    requires { width_of parts.of ≤ 4194304 }
    ensures value { Gives result (operator.in_context (source text.entry) first parts.of parts.form parts.arithmetic) }
    ensures of { IfOk result (λ v. v.expr.of ≡ parts.of) }
{
    allowed_in(text, width(&parts.of), &parts.arithmetic)?;
    Ok(valued(alloc, text, first, parts)?)
}
