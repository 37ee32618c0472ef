//! Taking parts of a kind from those of a row.

ghost use Rattle.std.specs.Prelude.{◌≡◌, IfOk, reverse};
ghost use Rattle.v_tree.specs.Parts.{all_of, first_of};
ghost use Rattle.v_tree.specs.Meaning.{same};
ghost use Rattle.v_parts.specs.Taking.{place_of, without, others};

use crate::kind::Kind;
use crate::kinds::Something;
use std::alloc::{AllocError, Global};
use sv_source::Items;
use v_tree::{VPart, VParts};

/// The place of the first part of the kind.
fn place<K: Kind>(parts: &[VPart]) -> Option<usize>
    ensures { result ≡ place_of K.value parts.now }
{
    parts.iter().position(|part| K::is(part))
}

/// Takes the first part of the kind away, if there is one.
pub fn first<K: Kind>(parts: &mut VParts) -> Option<K::Value>
    ensures value { result ≡ first_of K.value parts.old }
    ensures left { parts.new ≡ without K.value parts.old }
{
    match place::<K>(parts.as_slice()) {
        Some(place) => K::take(parts.remove(place)),
        None => None,
    }
}

/// The parts from the last to the first, or want of memory.
pub fn turned(alloc: Global, parts: VParts) -> Result<VParts, AllocError>
    ensures { IfOk result (λ turned. turned ≡ reverse parts) }
{
    let mut parts = parts;
    let mut turned = VParts::new(alloc);
    while let Some(part) = parts.pop() {
        turned.push(part)?;
    }
    Ok(turned)
}

/// What the parts of the kind say, in order, or want of memory.
pub fn all<K: Kind>(alloc: Global, parts: VParts) -> Result<Items<K::Value>, AllocError>
    ensures { IfOk result (λ values. values ≡ all_of K.value parts) }
{
    let mut parts = turned(alloc, parts)?;
    let mut values = Items::new(alloc);
    while let Some(part) = parts.pop() {
        if let Some(value) = K::take(part) {
            values.push(value)?;
        }
    }
    Ok(values)
}

/// What the parts of the kind say, and the others, both in order, or want of memory.
pub fn split<K: Kind>(alloc: Global, parts: VParts) -> Result<(Items<K::Value>, VParts), AllocError>
    ensures { IfOk result (λ found. (found.0 ≡ all_of K.value parts) × (found.1 ≡ others K.value parts)) }
{
    let mut parts = turned(alloc, parts)?;
    let mut values = Items::new(alloc);
    let mut others = VParts::new(alloc);
    while let Some(part) = parts.pop() {
        if K::is(&part) {
            if let Some(value) = K::take(part) {
                values.push(value)?;
            }
        } else {
            others.push(part)?;
        }
    }
    Ok((values, others))
}

/// The first part that says something, or a part that says nothing.
pub fn same(parts: VParts) -> VPart
    ensures { result ≡ same parts }
{
    let mut parts = parts;
    match first::<Something>(&mut parts) {
        Some(part) => part,
        None => VPart::Nothing,
    }
}
