//! Streams.

ghost use Rattle.std.specs.Prelude.{◌≡◌, ◌≤◌, min, IfOk};
ghost use Rattle.expr_type.specs.Answers.{Gives, source};
ghost use Rattle.expr_type.specs.Forms as form;
ghost use Rattle.expr_type.specs.Operands as rule;
ghost use Rattle.expr_type.specs.Operators.{all_bits};
ghost use Rattle.operand_types.specs.Allowed.{AllNarrow, IsShort, IsWithin};

use expr_type::{Halt, Source, Valued};
use operand_types::{by_itself, vector};
use std::alloc::Global;
use sv_types::{Expr, Exprs, Form, width};

/// The most bits that a stream may have.
pub const MOST_BITS: u32 = 65_536;

// One more than that stands for every larger number.
const TOO_MANY: u32 = 65_537;

/// A value as a part of a stream: no number without a size (E501). It may be unpacked.
pub fn is_streamed_value(text: Source<'_>, v: Valued) -> Result<Valued, Halt>
    ensures { Gives result (form.is_streamed_part (source text.entry) (rule.Plain v)) }
{
    if v.is_unsized {
        return Err(Halt::Breaks {
            at: v.first,
            rule: 501,
        });
    }
    Ok(v)
}

// The bits of all parts together, or 65,537 where there are more.
fn bits_of_all(parts: &[Expr]) -> u32
    requires { AllNarrow parts.now }
    ensures { result ≡ min (all_bits parts.now) 65537 }
{
    let mut sum: u32 = 0;
    for part in parts {
        sum = (sum + width(&part.of)).min(TOO_MANY);
    }
    sum
}

// The bits of all parts together, where they aren't too many.
#[tactic(auto, using(crate::proofs::Sums::few))]
fn few_bits(parts: &[Expr]) -> Option<u32>
    requires { AllNarrow parts.now }
    ensures { IsWithin result (all_bits parts.now) }
{
    let bits = bits_of_all(parts);
    if bits > MOST_BITS {
        return None;
    }
    Some(bits)
}

/// A stream at its `{`, of parts of at most 2^22 bits each, in slices of so many bits, which stand in reverse order behind `<<`.
/// It breaks E701 where the parts have more than 65,536 bits together.
pub fn stream_of(
    alloc: Global,
    text: Source<'_>,
    opening: u32,
    reversed: bool,
    slice: u32,
    parts: Exprs,
) -> Result<Valued, Halt>
    requires { AllNarrow parts }
    ensures value { Gives result (form.stream_of (source text.entry) opening reversed slice parts) }
    ensures narrow { IfOk result IsShort }
{
    match few_bits(parts.as_slice()) {
        None => Err(Halt::Breaks {
            at: opening,
            rule: 701,
        }),
        Some(bits) => {
            let of = vector(alloc, bits, false)?;
            let form = Form::Stream {
                reversed,
                slice,
                parts,
            };
            Ok(by_itself(alloc, text, opening, of, form)?)
        }
    }
}
