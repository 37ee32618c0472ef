//! What signals hold before the first row (IEEE 1364-2005 clauses 4.2.2 and 6.2.1).

ghost use Rattle.std.specs.Prelude.{◌≡◌, ◌*◌, map, IfOk};
ghost use Rattle.round_runner.specs.Stores.{Holds};
ghost use Rattle.v_instances.specs.Slots.{signal_of};
ghost use Rattle.v_meaning.specs.Machine.{size};
ghost use Rattle.v_stores.specs.Stores.{padded as padded_value, rooms, initially};

use b4_core::{Bit4, Vec4};
use std::alloc::{AllocError, Global};
use v_instances::Slot;

// So many words of so many bits, which memory runs out before.
fn bits_of_words(count: u64, width: u64) -> Result<usize, AllocError>
    ensures { IfOk result (λ n. n ≡ count * width) }
{
    match usize::try_from(count as u128 * width as u128) {
        Ok(bits) => Ok(bits),
        Err(_) => Err(AllocError),
    }
}

// How many bits a signal has, a memory with all its words.
fn size_of(slot: &Slot) -> Result<usize, AllocError>
    ensures { IfOk result (λ n. n ≡ size (signal_of slot.now)) }
{
    match slot.words {
        None => Ok(slot.width as usize),
        Some(count) => bits_of_words(count, slot.width),
    }
}

// What a signal holds before the first row, with x in all bits that have no value.
fn padded(alloc: Global, slot: &Slot) -> Result<Vec4, AllocError>
    ensures { IfOk result (λ v. v ≡ padded_value (signal_of slot.now)) }
{
    let count = size_of(slot)?;
    let given = slot.initial.as_slice();
    let fill = vec![in alloc; Bit4::X; count.saturating_sub(given.len())]?;
    let mut bits = Vec::with_capacity(alloc, given.len())?;
    bits.extend_from_slice(given)?;
    bits.extend_from_slice(&fill)?;
    Ok(Vec4::from_vec(bits))
}

// What each signal holds before the first row.
fn all_padded(alloc: Global, slots: &[Slot]) -> Result<Vec<Vec4>, AllocError>
    ensures { IfOk result (λ v. v.items ≡ map padded_value (map signal_of slots.now)) }
{
    let mut made = Vec::with_capacity(alloc, slots.len())?;
    for slot in slots {
        made.push(padded(alloc, slot)?)?;
    }
    Ok(made)
}

/// What the signals hold before the first row: the declared values, and x. Or want of memory.
pub fn initial_store(alloc: Global, slots: &[Slot]) -> Result<Vec<Vec4>, AllocError>
    ensures { IfOk result (λ v. Holds (rooms (map signal_of slots.now)) (initially (map signal_of slots.now)) v.items) }
{
    let made = all_padded(alloc, slots)?;
    Ok(made)
}
