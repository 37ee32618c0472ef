//! What stands at each place of a row's line.

ghost use Rattle.std.specs.Prelude.{◌≡◌, ◌++◌, map, reverse, IfOk, OnOk};
ghost use Rattle.stim_rows.specs.declared.slots.Slot.TheVariants.{Space};
ghost use Rattle.stim_rows.specs.Slots as spec;
ghost use Rattle.stim_rows.specs.Slots.{behind, joined};

use crate::shape::Port;
use b4_core::Bit4;
use std::alloc::{AllocError, Global};

/// What stands at a place of a row's line.
#[derive(Clone, Copy, PartialEq, Eq, Debug)]
pub enum Slot {
    /// A bit that is 0, 1, x or z.
    FourState,
    /// A bit that is 0 or 1.
    TwoState,
    /// The space between two inputs.
    Space,
    /// The newline.
    LineEnd,
}

impl Slot {
    /// Whether the byte can stand there.
    pub fn takes(self, byte: u8) -> bool
        ensures { result ≡ spec.takes self byte }
    {
        match self {
            Slot::FourState => byte == b'0' || byte == b'1' || byte == b'x' || byte == b'z',
            Slot::TwoState => byte == b'0' || byte == b'1',
            Slot::Space => byte == b' ',
            Slot::LineEnd => byte == b'\n',
        }
    }
}

fn slot_of(mark: Bit4) -> Slot
    ensures { result ≡ spec.slot_of mark }
{
    match mark {
        Bit4::One => Slot::TwoState,
        Bit4::Zero | Bit4::X | Bit4::Z => Slot::FourState,
    }
}

fn slots_of_marks(alloc: Global, marks: &[Bit4]) -> Result<Vec<Slot>, AllocError>
    ensures { IfOk result (λ slots. slots.items ≡ map spec.slot_of (reverse marks.now)) }
{
    marks.iter().rev().map(|mark| slot_of(*mark)).collect(alloc)
}

fn push_port(alloc: Global, slots: &mut Vec<Slot>, port: &Port) -> Result<(), AllocError>
    ensures { OnOk result (slots.new.items ≡ slots.old.items ++ spec.port_slots port.now) }
{
    let further = slots_of_marks(alloc, port.two_state.as_slice())?;
    slots.extend_from_slice(&further)
}

fn push_further(alloc: Global, slots: &mut Vec<Slot>, ports: &[Port]) -> Result<(), AllocError>
    ensures { OnOk result (slots.new.items ≡ slots.old.items ++ behind Space (map spec.port_slots ports.now)) }
{
    for port in ports {
        slots.push(Slot::Space)?;
        push_port(alloc, slots, port)?;
    }
    Ok(())
}

fn push_ports(alloc: Global, slots: &mut Vec<Slot>, ports: &[Port]) -> Result<(), AllocError>
    ensures { OnOk result (slots.new.items ≡ slots.old.items ++ joined Space (map spec.port_slots ports.now)) }
{
    match ports.split_first() {
        None => Ok(()),
        Some((first, rest)) => {
            push_port(alloc, slots, first)?;
            push_further(alloc, slots, rest)
        }
    }
}

/// What stands at each place of a row's line, for these inputs.
pub fn row_slots(alloc: Global, inputs: &[Port]) -> Result<Vec<Slot>, AllocError>
    ensures { IfOk result (λ slots. slots.items ≡ spec.slots_of inputs.now) }
{
    let mut slots = Vec::new(alloc);
    push_ports(alloc, &mut slots, inputs)?;
    slots.push(Slot::LineEnd)?;
    Ok(slots)
}
