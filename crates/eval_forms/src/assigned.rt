//! What is assigned to members, elements and formals (IEEE 1800-2017 clauses 10.7, 10.9 and 13.5).

ghost use Rattle.std.specs.Prelude.{◌≡◌, ◌≤◌, ◌-◌, ◌++◌, IfOk, cond, length, replicate, drop, take, [], ◌&&◌, ◌==◌};
ghost use Rattle.b4_core.specs.declared.bit.Bit4.TheVariants.{Zero};
ghost use Rattle.sv_types.specs.Expressions.{meaning};
ghost use Rattle.eval_parts.specs.Targets.{marks_of, AreNarrow};
ghost use Rattle.eval_forms.specs.Assigned.{IsGivenFrom, GivenBy, PlacesFit, AssignedBy};

use b4_core::Vec4;
use eval_parts::{Places, cut, from_top, own_width, stream_of, type_at};
use std::alloc::{AllocError, Global};
use sv_types::{Expr, store, width as width_of_type};

// The bits of a stream: of a value that has them at its low end, or none where slices have no bit.
fn bits_of_stream(
    alloc: Global,
    reversed: bool,
    slice: u32,
    total: u32,
    value: &Vec4,
) -> Result<Vec4, AllocError>
    requires { total ≤ length value.now }
    ensures { IfOk result (λ r. r ≡ cond (reversed && (slice == 0)) [] (take total value.now)) }
{
    if reversed && slice == 0 {
        Ok(Vec4::from_vec(Vec::new(alloc)))
    } else {
        cut(alloc, value, total)
    }
}

/// What an expression gives to a target of so many bits, from its value at the larger of this width and its own: the value,
/// cut; of a stream its bits from the top on, and 0 below them.
pub fn given_bits(alloc: Global, e: &Expr, width: u32, value: &Vec4) -> Result<Vec4, AllocError>
    requires { IsGivenFrom (meaning e.now) width value.now }
    ensures { IfOk result (λ r. GivenBy (meaning e.now) width value.now r) }
{
    match stream_of(e) {
        None => Ok(cut(alloc, value, width)?),
        Some(stream) => {
            let total = own_width(e);
            let bits = bits_of_stream(alloc, stream.reversed, stream.slice, total, value)?;
            Ok(from_top(alloc, &bits, total as usize, width)?)
        }
    }
}

/// What is assigned to places, from the values that were asked: each value is given to its place and stored as its type
/// stores it.
pub fn assigned_bits(
    alloc: Global,
    places: &Places<'_>,
    es: &[Expr],
    values: &[Vec4],
) -> Result<Vec<Vec4>, AllocError>
    requires places { AreNarrow places.now }
    requires fit { PlacesFit (marks_of places.now) es.now values.now }
    ensures { IfOk result (λ r. AssignedBy (marks_of places.now) es.now values.now r.items) }
{
    let mut all = Vec::with_capacity(alloc, values.len())?;
    for (i, e) in es.iter().enumerate() {
        let Some(t) = type_at(places, i) else {
            return Ok(all);
        };
        let given = given_bits(alloc, e, width_of_type(t), &values[i])?;
        all.push(store(alloc, t, &given)?)?;
    }
    Ok(all)
}
