ghost use Rattle.std.specs.Prelude.{◌≡◌, ◌<◌, length, IfOk};
ghost use Rattle.b4_core.specs.Vectors.{ext};

use crate::bit::{Bit4, Vec4};
use std::alloc::{AllocError, Global};

/// `v` cut to `width` bits, or filled up to them with its top bit if `signed`, else with 0 (IEEE 1800-2017 clauses 10.7
/// and 11.8.2). `v` has at least one bit. `AllocError` where memory runs out.
pub fn extend(alloc: Global, v: &Vec4, width: u32, signed: bool) -> Result<Vec4, AllocError>
    requires { 0 < length v.now }
    ensures { IfOk result (λ r. r ≡ ext width signed v.now) }
{
    let fill = if signed {
        v.at(v.len() - 1)
    } else {
        Bit4::Zero
    };
    let mut bits = Vec::from_slice(alloc, v.as_slice())?;
    bits.resize(width as usize, fill)?;
    Ok(Vec4::from_vec(bits))
}
