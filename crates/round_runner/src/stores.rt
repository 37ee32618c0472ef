//! Stores, copied and compared.

ghost use Rattle.std.specs.Prelude.{◌≡◌, ◌≢◌, ℕ, ◌<◌, true, false, length, slice_index_or, IfOk, MatchOption};
ghost use Rattle.b4_core.specs.declared.bit.Bit4.TheVariants.{X};
ghost use Rattle.round_runner.specs.Stores.{widths, FirstChange};

use b4_core::{Bit4, Vec4};
use std::alloc::{AllocError, Global};

/// The same vector.
pub fn copied_vector(alloc: Global, vector: &Vec4) -> Result<Vec4, AllocError>
    ensures { IfOk result (λ v. v ≡ vector.now) }
{
    Vec4::from_slice(alloc, vector.as_slice())
}

/// The same vectors.
pub fn copied(alloc: Global, store: &[Vec4]) -> Result<Vec<Vec4>, AllocError>
    ensures { IfOk result (λ r. r.items ≡ store.now) }
{
    let mut copy = Vec::with_capacity(alloc, store.len())?;
    for vector in store {
        copy.push(copied_vector(alloc, vector)?)?;
    }
    Ok(copy)
}

// The first bit that differs.
fn first_difference(v: &[Bit4], u: &[Bit4]) -> Option<usize>
    requires { length v.now ≡ length u.now }
    ensures { MatchOption result (v.now ≡ u.now) (λ k. slice_index_or v.now k X ≢ slice_index_or u.now k X) }
{
    for k in 0..v.len() {
        if v[k] != u[k] {
            return Some(k);
        }
    }
    None
}

/// Whether two vectors differ.
pub fn differ(v: &Vec4, u: &Vec4) -> bool
    requires { length v.now ≡ length u.now }
    ensures apart { result ≡ true → (k : ℕ) × (slice_index_or v.now k X ≢ slice_index_or u.now k X) }
    ensures same { result ≡ false → v.now ≡ u.now }
{
    match first_difference(v.as_slice(), u.as_slice()) {
        None => false,
        Some(_) => true,
    }
}

/// The first signal whose vectors differ.
pub fn first_change(old: &[Vec4], new: &[Vec4]) -> Option<usize>
    requires { widths old.now ≡ widths new.now }
    ensures { MatchOption result (old.now ≡ new.now) (FirstChange old.now new.now) }
{
    for n in 0..old.len() {
        if let Some(_) = first_difference(old[n].as_slice(), new[n].as_slice()) {
            return Some(n);
        }
    }
    None
}
