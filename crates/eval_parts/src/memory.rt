//! Want of memory.

ghost use Rattle.std.specs.Prelude.{◌≡◌, false, IfOk, MatchResult};
ghost use Rattle.b4_core.specs.Vectors.{ext};
ghost use Rattle.eval_parts.specs.declared.halt.Halt.TheVariants.{Memory};
ghost use Rattle.sv_types.specs.Layouts.{stacked, repeated};
ghost use Rattle.sv_types.specs.Operators.{streamed};
ghost use Rattle.sv_types.specs.Values.{bits};
ghost use Rattle.eval_parts.specs.Answers.{Stops};

use crate::halt::Halt;
use crate::orders::streamed_bits;
use crate::vectors::{extended, repeat, stack};
use b4_core::Vec4;
use std::alloc::{AllocError, Global};
use sv_types::{Expr, Value, bits_of};

/// The value, or the stop that want of memory is.
pub fn or_memory(made: Result<Vec4, AllocError>) -> Result<Vec4, Halt>
    ensures { Stops made result }
{
    match made {
        Ok(v) => Ok(v),
        Err(_) => Err(Halt::Memory),
    }
}

/// The bits of a constant in their context.
pub fn constant(alloc: Global, e: &Expr, v: &Value, width: u32, signed: bool) -> Result<Vec4, Halt>
    ensures { MatchResult result (λ r. r ≡ ext width signed (bits v.now)) (λ h. h ≡ Memory) }
{
    let held = bits_of(alloc, &e.of, v)?;
    or_memory(extended(alloc, &held, width, signed))
}

/// All parts, the first one on top, in their context.
pub fn in_context(
    alloc: Global,
    parts: &[Vec4],
    width: u32,
    signed: bool,
) -> Result<Vec4, AllocError>
    ensures { IfOk result (λ r. r ≡ ext width signed (stacked parts.now)) }
{
    extended(alloc, &stack(alloc, parts)?, width, signed)
}

/// The same, there so often.
pub fn repeated_in_context(
    alloc: Global,
    count: u32,
    parts: &[Vec4],
    width: u32,
    signed: bool,
) -> Result<Vec4, AllocError>
    ensures { IfOk result (λ r. r ≡ ext width signed (repeated count (stacked parts.now))) }
{
    let once = stack(alloc, parts)?;
    extended(alloc, &repeat(alloc, count, &once)?, width, signed)
}

/// The same in the order of a stream.
pub fn stream_in_context(
    alloc: Global,
    reversed: bool,
    slice: u32,
    parts: &[Vec4],
    width: u32,
) -> Result<Vec4, AllocError>
    ensures { IfOk result (λ r. r ≡ ext width false (streamed reversed slice (stacked parts.now))) }
{
    let all = streamed_bits(alloc, reversed, slice, stack(alloc, parts)?)?;
    extended(alloc, &all, width, false)
}
