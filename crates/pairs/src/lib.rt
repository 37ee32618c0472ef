//! Two values of which each may be want of memory.
#![tactic(auto)]

ghost use Rattle.std.specs.Prelude.{◌≡◌, Ok, IfOk};

use std::alloc::AllocError;

/// Both values, or the first want of memory.
pub fn both<A: Drop, B: Drop>(
    a: Result<A, AllocError>,
    b: Result<B, AllocError>,
) -> Result<(A, B), AllocError>
    ensures { IfOk result (λ both. (a ≡ Ok both.0) × (b ≡ Ok both.1)) }
{
    let a = a?;
    let b = b?;
    Ok((a, b))
}
