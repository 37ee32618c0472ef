//! Concatenations (IEEE 1800-2017 clause 11.4.12).

ghost use Rattle.std.specs.Prelude.{◌≡◌, ◌<◌, ◌*◌, ◌^◌, min, IfOk};
ghost use Rattle.expr_type.specs.Answers.{Gives, source};
ghost use Rattle.expr_type.specs.Operators as operator;
ghost use Rattle.expr_type.specs.Operators.{all_bits};
ghost use Rattle.operand_types.specs.Allowed.{AllNarrow, IsNarrow, IsWithin};

use crate::makes::by_itself;
use expr_type::{Halt, Source, Valued};
use std::alloc::Global;
use sv_types::{Expr, Exprs, Form, width};
use type_kinds::{is_unpacked, vector};

/// The most bits that an expression may have.
pub const MOST_BITS: u32 = 65536;

// One more than that stands for every larger number.
const TOO_MANY: u32 = 65537;

/// A part of a concatenation: no number without a size (E501), and not unpacked (E508).
pub fn is_part(text: Source<'_>, v: Valued) -> Result<Valued, Halt>
    ensures { Gives result (operator.is_part (source text.entry) v) }
{
    if v.is_unsized {
        return Err(Halt::Breaks {
            at: v.first,
            rule: 501,
        });
    }
    if is_unpacked(&v.expr.of) {
        return Err(Halt::Breaks {
            at: v.first,
            rule: 508,
        });
    }
    Ok(v)
}

// The bits of all parts together, or 65,537 where there are more.
fn bits_of_all(parts: &[Expr]) -> u32
    requires { AllNarrow parts.now }
    ensures { result ≡ min (all_bits parts.now) 65537 }
{
    let mut sum: u32 = 0;
    for part in parts {
        sum = (sum + width(&part.of)).min(TOO_MANY);
    }
    sum
}

// The bits of all parts together, where they aren't too many.
#[tactic(auto, using(crate::proofs::Sums::few))]
fn few_bits(parts: &[Expr]) -> Option<u32>
    requires { AllNarrow parts.now }
    ensures { IsWithin result (all_bits parts.now) }
{
    let bits = bits_of_all(parts);
    if bits > MOST_BITS {
        return None;
    }
    Some(bits)
}

// The bits of all parts so often, where they aren't too many.
#[tactic(auto, using(crate::proofs::Sums::few_times))]
fn few_bits_times(count: u32, parts: &[Expr]) -> Option<u32>
    requires { AllNarrow parts.now }
    ensures { IsWithin result (count * all_bits parts.now) }
{
    let bits = u64::from(count) * u64::from(bits_of_all(parts));
    if bits > u64::from(MOST_BITS) {
        return None;
    }
    Some(bits as u32)
}

/// A concatenation at its `{`, of parts of at most 2^22 bits each. It breaks E701 where they have more than 65,536 together.
pub fn concat_of(
    alloc: Global,
    text: Source<'_>,
    opening: u32,
    parts: Exprs,
) -> Result<Valued, Halt>
    requires { AllNarrow parts }
    ensures value { Gives result (operator.concat_of (source text.entry) opening parts) }
    ensures narrow { IfOk result IsNarrow }
{
    match few_bits(parts.as_slice()) {
        None => Err(Halt::Breaks {
            at: opening,
            rule: 701,
        }),
        Some(bits) => {
            let of = vector(alloc, bits, false)?;
            Ok(by_itself(alloc, text, opening, of, Form::Concat(parts))?)
        }
    }
}

/// A concatenation that is repeated so often, at its outer `{`, of parts of at most 2^22 bits each. It breaks E701 where the
/// whole has more than 65,536.
pub fn repeat_of(
    alloc: Global,
    text: Source<'_>,
    opening: u32,
    count: u32,
    parts: Exprs,
) -> Result<Valued, Halt>
    requires { AllNarrow parts }
    ensures value { Gives result (operator.repeat_of (source text.entry) opening count parts) }
    ensures narrow { IfOk result IsNarrow }
{
    match few_bits_times(count, parts.as_slice()) {
        None => Err(Halt::Breaks {
            at: opening,
            rule: 701,
        }),
        Some(bits) => {
            let of = vector(alloc, bits, false)?;
            Ok(by_itself(alloc, text, opening, of, Form::Repeat(count, parts))?)
        }
    }
}
