//! What is given to a target.

ghost use Rattle.std.specs.Prelude.{◌≡◌, ◌<◌, ◌≤◌, ◌&&◌, false, max, nat_lt};
ghost use Rattle.expr_type.specs.Answers.{Gives, source};
ghost use Rattle.expr_type.specs.Operands as rule;
ghost use Rattle.given_types.specs.Admitting.{Admits};
ghost use Rattle.given_types.specs.Wide.{first_wide};
ghost use Rattle.operand_types.specs.Allowed.{IsShort};
ghost use Rattle.sv_types.specs.Layouts.{width_of};

use crate::matching::is_assignable;
use expr_type::{Halt, Source, Valued};
use operand_types::is_plain_to_enum;
use sv_types::{Expr, SvType, is_narrow, width};

/// Whether a type has more bits than this, which are at most 2^22 - 1.
pub fn is_above(bits: u32, t: &SvType) -> bool
    requires { bits < 4194304 }
    ensures above { result ≡ nat_lt bits (width_of t.now) }
    ensures within { result ≡ false → width_of t.now ≤ bits }
{
    if !is_narrow(t) {
        return true;
    }
    bits < width(t)
}

// The first operator in a value that would do arithmetic on more than 128 bits, where the value is given to a type.
#[tactic(auto, using(crate::proofs::Firsts::wides))]
fn first_wide(t: &SvType, v: &Valued) -> Option<u32>
    ensures { result ≡ first_wide (max (width_of t.now) (rule.width v.now)) v.now.arithmetic }
{
    let wide = is_above(128, t) || is_above(128, &v.expr.of);
    if !wide {
        return None;
    }
    sv_source::at(v.arithmetic.as_slice(), 0).copied()
}

// Whether a break of a type comes before one at an operator.
fn is_sooner(plain: bool, first: u32, at: u32) -> bool
    ensures { result ≡ (plain && nat_lt first at) }
{
    plain && first < at
}

/// That a value may be given to a target of a type, as `is_given` asks.
#[tactic(auto, using(crate::proofs::Firsts::giving))]
pub fn may_give(text: Source<'_>, t: &SvType, v: &Valued) -> Result<(), Halt>
    ensures { Admits result v.now.expr (rule.is_given (source text.entry) t.now v.now) }
{
    if !is_assignable(t, &v.expr.of) {
        return Err(Halt::Breaks {
            at: v.first,
            rule: 501,
        });
    }
    let plain = is_plain_to_enum(t, &v.expr.of);
    match first_wide(t, v) {
        None => {
            if plain {
                return Err(Halt::Breaks {
                    at: v.first,
                    rule: 503,
                });
            }
            Ok(())
        }
        Some(at) => {
            if is_sooner(plain, v.first, at) {
                return Err(Halt::Breaks {
                    at: v.first,
                    rule: 503,
                });
            }
            Err(Halt::Breaks { at, rule: 502 })
        }
    }
}

/// A value that is given to a target of a type, as it stands (clauses 6.19.3 and 10.8). It breaks E501 where the types aren't
/// assignable, E503 where an enum is given what isn't of its type, and E502 where an operator would do arithmetic on more than
/// 128 bits.
pub fn is_given(text: Source<'_>, t: &SvType, v: Valued) -> Result<Expr, Halt>
    ensures { Gives result (rule.is_given (source text.entry) t.now v) }
{
    may_give(text, t, &v)?;
    Ok(v.expr)
}

// That a stream may be given to a type.
#[tactic(auto, using(crate::proofs::Streams::streaming))]
fn may_stream(text: Source<'_>, t: &SvType, v: &Valued) -> Result<(), Halt>
    requires { IsShort v.now }
    ensures { Admits result v.now.expr (rule.is_streamed (source text.entry) t.now v.now) }
{
    if is_above(65_536, t) {
        return Err(Halt::Breaks {
            at: v.first,
            rule: 701,
        });
    }
    if width(t) < width(&v.expr.of) {
        return Err(Halt::Breaks {
            at: v.first,
            rule: 501,
        });
    }
    Ok(())
}

/// A stream of at most 65,536 bits that is given to a target of a type, which is as long at least (E501) and has at most 65,536 bits
/// (E701).
pub fn is_streamed(text: Source<'_>, t: &SvType, v: Valued) -> Result<Expr, Halt>
    requires { IsShort v }
    ensures { Gives result (rule.is_streamed (source text.entry) t.now v) }
{
    may_stream(text, t, &v)?;
    Ok(v.expr)
}
