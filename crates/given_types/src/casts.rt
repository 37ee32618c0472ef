//! Casts (IEEE 1800-2017 clauses 6.24.1 and 20.5): what is cast is valued alone.

ghost use Rattle.std.specs.Prelude.{◌≡◌, ◌≤◌, IfOk};
ghost use Rattle.expr_type.specs.Answers.{Gives, source};
ghost use Rattle.expr_type.specs.Forms as form;
ghost use Rattle.expr_type.specs.Operands as rule;
ghost use Rattle.operand_types.specs.Allowed.{IsNarrow};
ghost use Rattle.given_types.specs.Casts as cast;

use crate::giving::is_above;
use crate::matching::is_assignable;
use expr_type::{Halt, Source, Valued};
use operand_types::{by_itself, is_signed, vector};
use std::alloc::{AllocError, Global};
use sv_source::Boxed;
use sv_types::{Expr, Form, SvType, width};

/// The most bits that an expression may have.
pub const MOST_BITS: u32 = 65_536;

// An expression that is cast to a type.
fn cast_expr(
    alloc: Global,
    text: Source<'_>,
    first: u32,
    t: SvType,
    e: Expr,
) -> Result<Valued, AllocError>
    ensures value { IfOk result (λ v. v ≡ form.cast_expr (source text.entry) first t e) }
    ensures of { IfOk result (λ v. v.expr.of ≡ t) }
{
    match Boxed::new(alloc, e) {
        Ok(inner) => by_itself(alloc, text, first, t, Form::Cast(inner)),
        Err(want) => Err(want),
    }
}

/// An expression that is cast to a type of at most 65,536 bits, else it breaks E701 at the tick; a pattern has the type already.
pub fn cast_of(
    alloc: Global,
    text: Source<'_>,
    first: u32,
    tick: u32,
    t: SvType,
    e: Expr,
) -> Result<Valued, Halt>
    ensures value { Gives result (cast.cast_of (source text.entry) first tick t e) }
    ensures narrow { IfOk result IsNarrow }
{
    if is_above(MOST_BITS, &t) {
        return Err(Halt::Breaks {
            at: tick,
            rule: 701,
        });
    }
    Ok(cast_expr(alloc, text, first, t, e)?)
}

/// A value that is cast to a type: it is converted as in an assignment, but an enum takes any value that has bits. It breaks E701 at
/// the tick where the type has more than 65,536 bits, and E501 where the types aren't assignable.
pub fn converted(
    alloc: Global,
    text: Source<'_>,
    first: u32,
    tick: u32,
    t: SvType,
    v: Valued,
) -> Result<Valued, Halt>
    ensures value { Gives result (form.converted (source text.entry) first tick t (rule.Plain v)) }
    ensures narrow { IfOk result IsNarrow }
{
    if is_above(MOST_BITS, &t) {
        return Err(Halt::Breaks {
            at: tick,
            rule: 701,
        });
    }
    if !is_assignable(&t, &v.expr.of) {
        return Err(Halt::Breaks {
            at: v.first,
            rule: 501,
        });
    }
    Ok(cast_expr(alloc, text, first, t, v.expr)?)
}

/// A value that has bits, cast to a number of bits, which keeps its sign. It breaks E701 at the tick where they are more than
/// 65,536.
pub fn size_cast(
    alloc: Global,
    text: Source<'_>,
    first: u32,
    bits: u32,
    tick: u32,
    v: Valued,
) -> Result<Valued, Halt>
    ensures value { Gives result (form.size_cast (source text.entry) first bits (tick, v)) }
    ensures narrow { IfOk result IsNarrow }
{
    if bits > MOST_BITS {
        return Err(Halt::Breaks {
            at: tick,
            rule: 701,
        });
    }
    let of = vector(alloc, bits, is_signed(&v.expr.of))?;
    Ok(cast_expr(alloc, text, first, of, v.expr)?)
}

/// A value that has bits with another sign: a cast by `signed` or `unsigned`, `$signed` or `$unsigned`.
pub fn with_sign(
    alloc: Global,
    text: Source<'_>,
    first: u32,
    signed: bool,
    v: Valued,
) -> Result<Valued, AllocError>
    requires { IsNarrow v }
    ensures value { IfOk result (λ r. r ≡ form.with_sign (source text.entry) first signed v) }
    ensures narrow { IfOk result IsNarrow }
{
    let of = vector(alloc, width(&v.expr.of), signed)?;
    cast_expr(alloc, text, first, of, v.expr)
}
