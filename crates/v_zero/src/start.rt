//! What signals hold until a run assigns them (IEEE 1364-2005 clauses 4.6 and 4.2.2).

ghost use Rattle.std.specs.Prelude.{◌≡◌, ℕ, ◌<◌, [], false, cond, length, map, slice_index_or};
ghost use Rattle.b4_core.specs.declared.bit.Bit4.TheVariants.{X, Z};
ghost use Rattle.round_runner.specs.Stores.{Holds, holding, widths};
ghost use Rattle.v_instances.specs.Slots.{signal_of};
ghost use Rattle.v_meaning.specs.Machine.{size};
ghost use Rattle.v_zero.specs.Zero.{marked, started, StartedOne};

use b4_core::{Bit4, Items, Vec4};
use sv_source::at;
use v_instances::{Slot, SlotKind};

// Whether a bit is marked.
fn is_marked(marks: &[bool], k: usize) -> bool
    ensures { result ≡ slice_index_or marks.now k false }
{
    if k < marks.len() { marks[k] } else { false }
}

// The marks of a signal.
fn marks_at(all: &[Items<bool>], n: usize) -> &[bool]
    ensures { result.now ≡ slice_index_or all.now n [] }
{
    match at(all, n) {
        None => &[],
        Some(marks) => marks.as_slice(),
    }
}

// Puts z in all bits that aren't marked.
fn put_z(marks: &[bool], bits: &mut Vec4)
    ensures shape { length bits.new ≡ length bits.old }
    ensures values { (k : ℕ) → k < length bits.old → slice_index_or bits.new k X ≡ cond (slice_index_or marks.now k false) (slice_index_or bits.old k X) Z }
{
    for k in 0..bits.len() {
        if !is_marked(marks, k) {
            bits.put(k, Bit4::Z);
        }
    }
}

// Puts z in the bits of a net that aren't marked.
fn start_one(slot: &Slot, marks: &[bool], bits: &mut Vec4)
    ensures { StartedOne (signal_of slot.now) marks.now bits.old bits.new }
{
    match slot.kind {
        SlotKind::Input => put_z(marks, bits),
        SlotKind::Net => put_z(marks, bits),
        SlotKind::Variable => {}
    }
}

/// Puts z in all bits of nets that no process writes, so that a store holds what signals hold until a run assigns them. The marks
/// say of each bit of each signal whether a process may write it.
pub fn start_store(slots: &[Slot], written: &[Items<bool>], store: &mut [Vec4])
    requires { widths store.old ≡ map size (map signal_of slots.now) }
    ensures { Holds (widths store.old) (started (map signal_of slots.now) (marked written.now) (holding store.old)) store.new }
{
    for n in 0..store.len() {
        start_one(&slots[n], marks_at(written, n), &mut store[n]);
    }
}
