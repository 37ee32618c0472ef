//! Copies of stores.

ghost use Rattle.std.specs.Prelude.{◌≡◌, IfOk};

use b4_core::Vec4;
use std::alloc::{AllocError, Global};

// The same vector.
fn copied_vector(alloc: Global, vector: &Vec4) -> Result<Vec4, AllocError>
    ensures { IfOk result (λ v. v ≡ vector.now) }
{
    Vec4::from_slice(alloc, vector.as_slice())
}

/// The same vectors. Or want of memory.
pub fn copied(alloc: Global, store: &[Vec4]) -> Result<Vec<Vec4>, AllocError>
    ensures { IfOk result (λ r. r.items ≡ store.now) }
{
    let mut copy = Vec::with_capacity(alloc, store.len())?;
    for vector in store {
        copy.push(copied_vector(alloc, vector)?)?;
    }
    Ok(copy)
}
