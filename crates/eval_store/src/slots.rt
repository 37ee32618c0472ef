//! Writes of signals and locals.

ghost use Rattle.std.specs.Prelude.{◌≡◌, ◌<◌, ◌≤◌, ◌^◌, ◌++◌, ◌-◌, true, length, replicate, IfOk, OnOk};
ghost use Rattle.b4_core.specs.declared.bit.Bit4.TheVariants.{X};
ghost use Rattle.eval_parts.specs.Places.{window_of, IsNear};
ghost use Rattle.eval_parts.specs.Steps.{is_held};
ghost use Rattle.eval_store.specs.Writes.{SlotReaches, SlotWritten, SignalWritten, LocalWritten, Longer, WrittenAt};

use crate::bits::{grown, set_bits};
use b4_core::Vec4;
use eval_parts::Window;
use std::alloc::{AllocError, Global};

// Whether a slot holds so many bits or more.
fn reaches(slot: &Option<Vec4>, high: u32) -> bool
    ensures { SlotReaches result slot.now high }
{
    match slot {
        None => false,
        Some(v) => (high as usize) <= v.len(),
    }
}

// What a slot holds, with x behind it up to so many bits.
fn longer(alloc: Global, slot: &Option<Vec4>, count: u32) -> Result<Vec4, AllocError>
    ensures { IfOk result (λ r. Longer slot.now count r) }
{
    match slot {
        None => Ok(grown(alloc, &Vec4::from_vec(Vec::new(alloc)), count as usize)?),
        Some(v) => Ok(grown(alloc, v, count as usize)?),
    }
}

// Writes bits that a slot holds already.
fn set_held(slot: &mut Option<Vec4>, window: Window, bits: &Vec4)
    requires reaches { SlotReaches true slot.old window.high }
    requires near { IsNear window.shift }
    ensures { SlotWritten slot.old slot.new (window_of window) bits.now }
{
    match slot {
        None => {}
        Some(v) => set_bits(v, window, bits),
    }
}

/// Writes bits through a window of what a slot holds.
pub fn write_slot(
    alloc: Global,
    slot: &mut Option<Vec4>,
    window: Window,
    bits: &Vec4,
) -> Result<(), AllocError>
    requires { IsNear window.shift }
    ensures { OnOk result (SlotWritten slot.old slot.new (window_of window) bits.now) }
{
    if reaches(slot, window.high) {
        set_held(slot, window, bits);
        return Ok(());
    }
    let mut held = longer(alloc, slot, window.high)?;
    set_bits(&mut held, window, bits);
    *slot = Some(held);
    Ok(())
}

// Writes bits through a window of the slot with a number.
fn write_at(
    alloc: Global,
    slots: &mut [Option<Vec4>],
    n: u32,
    window: Window,
    bits: &Vec4,
) -> Result<(), AllocError>
    requires there { n < length slots.old }
    requires near { IsNear window.shift }
    ensures { OnOk result (WrittenAt slots.old slots.new n (window_of window) bits.now) }
{
    write_slot(alloc, &mut slots[n as usize], window, bits)
}

/// Writes bits through a window of a signal that is held. It takes the time of the bits that it writes.
pub fn write_signal(
    alloc: Global,
    signals: &mut [Option<Vec4>],
    n: u32,
    window: Window,
    bits: &Vec4,
) -> Result<(), AllocError>
    requires held { is_held signals.old n ≡ true }
    requires near { IsNear window.shift }
    ensures { OnOk result (SignalWritten signals.old signals.new n (window_of window) bits.now) }
{
    write_at(alloc, signals, n, window, bits)
}

/// Writes bits through a window of a local, which may have no slot yet.
pub fn write_local(
    alloc: Global,
    locals: &mut Vec<Option<Vec4>>,
    n: u32,
    window: Window,
    bits: &Vec4,
) -> Result<(), AllocError>
    requires { IsNear window.shift }
    ensures { OnOk result (LocalWritten locals.old.items locals.new.items n (window_of window) bits.now) }
{
    for _i in locals.len()..n as usize + 1 {
        locals.push(None)?;
    }
    write_at(alloc, locals, n, window, bits)
}
