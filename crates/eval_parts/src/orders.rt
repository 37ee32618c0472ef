//! The order of the bits of a stream (IEEE 1800-2017 clause 11.4.14.2).

ghost use Rattle.std.specs.Prelude.{◌≡◌, ◌≤◌, ◌<◌, ◌+◌, ◌-◌, ◌*◌, ◌++◌, true, length, drop, replicate, IfOk};
ghost use Rattle.b4_core.specs.declared.bit.Bit4.TheVariants.{Zero};
ghost use Rattle.sv_types.specs.Operators.{streamed};
ghost use Rattle.eval_parts.specs.Streams.{IsStreamOf};

use b4_core::{Bit4, Vec4};
use std::alloc::{AllocError, Global};
use sv_types::{Expr, Form};

// Slices from the last one, which may be shorter, to the first one.
fn slices_reversed(alloc: Global, bits: &[Bit4], slice: usize) -> Result<Vec<Bit4>, AllocError>
    requires { 0 < slice }
    ensures { IfOk result (λ r. r.items ≡ streamed true slice bits.now) }
{
    let mut count = bits.len() / slice;
    let mut from = count * slice;
    let mut reversed = Vec::with_capacity(alloc, bits.len())?;
    reversed.extend_from_slice(&bits[from..])?;
    while count > 0 {
        count -= 1;
        from -= slice;
        reversed.extend_from_slice(&bits[from..from + slice])?;
    }
    Ok(reversed)
}

/// A vector in the order of a stream. `<<` puts its slices of so many bits, which are cut from its low end on, in the reverse
/// order; the last one is shorter if need be.
#[tactic(auto, using(crate::proofs::Streams::empty))]
pub fn streamed_bits(alloc: Global, reversed: bool, slice: u32, v: Vec4) -> Result<Vec4, AllocError>
    ensures { IfOk result (λ r. r ≡ streamed reversed slice v) }
{
    if !reversed {
        Ok(v)
    } else if slice == 0 {
        Ok(Vec4::from_vec(Vec::new(alloc)))
    } else {
        Ok(Vec4::from_vec(slices_reversed(alloc, v.as_slice(), slice as usize)?))
    }
}

/// A stream: whether it is `<<`, the bits of a slice, and its parts.
#[derive(Clone, Copy)]
pub struct Stream<'a> {
    /// Whether it is `<<`.
    pub reversed: bool,
    /// The bits of a slice.
    pub slice: u32,
    /// The parts.
    pub parts: &'a [Expr],
}

/// The stream that an expression is, if it is one.
pub fn stream_of(e: &Expr) -> Option<Stream<'_>>
    ensures { IsStreamOf result e.now }
{
    match &e.form {
        Form::Literal { .. } => None,
        Form::Fill(_) => None,
        Form::Constant(_) => None,
        Form::Signal(_) => None,
        Form::Local(_) => None,
        Form::Member(_, _) => None,
        Form::Index(_, _) => None,
        Form::Part { .. } => None,
        Form::Slide { .. } => None,
        Form::Unary(_, _) => None,
        Form::Reduce(_, _) => None,
        Form::Negate(_) => None,
        Form::Binary(_, _, _) => None,
        Form::Shift(_, _, _) => None,
        Form::Power(_, _) => None,
        Form::Order(_, _, _) => None,
        Form::Equal { .. } => None,
        Form::Both(_, _) => None,
        Form::Either(_, _) => None,
        Form::Choose(_, _, _) => None,
        Form::Concat(_) => None,
        Form::Repeat(_, _) => None,
        Form::Inside(_, _) => None,
        Form::Cast(_) => None,
        Form::Clog2(_) => None,
        Form::Pattern(_) => None,
        Form::Call(_, _) => None,
        Form::Stream {
            reversed,
            slice,
            parts,
        } => Some(Stream {
            reversed: *reversed,
            slice: *slice,
            parts: parts.as_slice(),
        }),
    }
}

/// Bits of a stream as they are given to a target of so many bits: from the top on, 0 fills the rest.
#[tactic(auto, using(crate::proofs::Streams::tops))]
pub fn from_top(alloc: Global, v: &Vec4, total: usize, width: u32) -> Result<Vec4, AllocError>
    ensures { IfOk result (λ r. r ≡ replicate (width - total) Zero ++ drop (total - width) v.now) }
{
    let width = width as usize;
    let fill = width.saturating_sub(total);
    let below = total.saturating_sub(width).min(v.len());
    let mut bits = vec![in alloc; Bit4::Zero; fill]?;
    bits.extend_from_slice(&v.as_slice()[below..])?;
    Ok(Vec4::from_vec(bits))
}
