ghost use Rattle.std.specs.Prelude.{◌≡◌, ◌≤◌, ◌<◌, length, min, IfOk};
ghost use Rattle.b4_core.specs.Shift.{shift_value, shift_up, shift_down, shift_by};

use crate::bit::{Bit4, Vec4};
use crate::operators::ShiftOp;
use crate::words::{capped_number, unknown_bits};
use std::alloc::{AllocError, Global};

/// `v` shifted by the unsigned number `by` (IEEE 1800-2017 clause 11.4.10), all x where `by` has x or z. `signed` is the
/// sign of the result, which only `>>>` reads. Both have at least one bit. `AllocError` where memory runs out.
pub fn shift(
    alloc: Global,
    op: ShiftOp,
    v: &Vec4,
    by: &Vec4,
    signed: bool,
) -> Result<Vec4, AllocError>
    requires some { 0 < length v.now }
    requires amount { 0 < length by.now }
    ensures { IfOk result (λ r. r ≡ shift_value op signed v.now by.now) }
{
    let bits = match capped_number(by.as_slice(), v.len()) {
        Some(places) => shifted(alloc, op, v.as_slice(), places, signed)?,
        None => unknown_bits(alloc, v.len())?,
    };
    Ok(Vec4::from_vec(bits))
}

// `v` shifted by `places`, which are at most its length.
fn shifted(
    alloc: Global,
    op: ShiftOp,
    v: &[Bit4],
    places: usize,
    signed: bool,
) -> Result<Vec<Bit4>, AllocError>
    requires some { 0 < length v.now }
    requires within { places ≤ length v.now }
    ensures { IfOk result (λ r. r.items ≡ shift_by op signed places v.now) }
{
    match op {
        ShiftOp::Left => up(alloc, v, places),
        ShiftOp::Right => down(alloc, v, places, Bit4::Zero),
        ShiftOp::Arith => down(
            alloc,
            v,
            places,
            if signed { v[v.len() - 1] } else { Bit4::Zero },
        ),
    }
}

fn up(alloc: Global, v: &[Bit4], places: usize) -> Result<Vec<Bit4>, AllocError>
    requires { places ≤ length v.now }
    ensures { IfOk result (λ r. r.items ≡ shift_up places v.now) }
{
    let mut bits = vec![in alloc; Bit4::Zero; places]?;
    bits.extend_from_slice(&v[..v.len() - places])?;
    Ok(bits)
}

fn down(alloc: Global, v: &[Bit4], places: usize, fill: Bit4) -> Result<Vec<Bit4>, AllocError>
    requires { places ≤ length v.now }
    ensures { IfOk result (λ r. r.items ≡ shift_down fill places v.now) }
{
    let mut bits = Vec::from_slice(alloc, &v[places..])?;
    bits.resize(v.len(), fill)?;
    Ok(bits)
}
