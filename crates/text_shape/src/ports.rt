//! Ports of the shape.

ghost use Rattle.std.specs.Prelude.{◌≡◌, ◌++◌, replicate, IfOk, OnOk};
ghost use Rattle.b4_core.specs.declared.bit.Bit4.TheVariants.{Zero};
ghost use Rattle.text_shape.specs.Signals.{entries};
ghost use Rattle.text_shape.specs.Shapes as means;

use crate::signals::{Entry, Signals};
use b4_core::{Bit4, Vec4};
use std::alloc::{AllocError, Global};
use stim_rows::{Port, Ports};
use sv_source::Text;

// A number as a short one. No machine holds a vector of as many bits as one that has none.
fn short(number: u64) -> Result<u32, AllocError>
    ensures { IfOk result (λ n. n ≡ number) }
{
    match u32::try_from(number) {
        Ok(number) => Ok(number),
        Err(_) => Err(AllocError),
    }
}

// A mark for each of so many bits: no bit of a text is of a two-state type.
fn marks(alloc: Global, width: u32) -> Result<Vec4, AllocError>
    ensures { IfOk result (λ marks. marks ≡ replicate width Zero) }
{
    let mut marks = Vec::new(alloc);
    for _bit in 0..width {
        marks.push(Bit4::Zero)?;
    }
    Ok(Vec4::from_vec(marks))
}

// The port with a name that stands for this signal.
fn make_port(alloc: Global, name: &Text, entry: Entry) -> Result<Port, AllocError>
    ensures { IfOk result (λ port. port ≡ means.port_of name.now entry) }
{
    let width = short(entry.width)?;
    Ok(Port {
        name: name.copy(alloc)?,
        width,
        two_state: marks(alloc, width)?,
        signal: short(entry.number as u64)?,
    })
}

// The signal with a name; one that isn't declared has no bits.
fn declared(signals: &Signals, name: &Text) -> Entry
    ensures { result ≡ means.declared (entries signals.now name.now) }
{
    match signals.find(name) {
        Some(entry) => entry,
        None => Entry {
            number: 0,
            width: 0,
            is_input: false,
        },
    }
}

// Adds the port with a name, if it is an input or if it is none, as is asked.
fn add_port(
    alloc: Global,
    signals: &Signals,
    is_input: bool,
    name: &Text,
    ports: &mut Ports,
) -> Result<(), AllocError>
    ensures { OnOk result (ports.new ≡ ports.old ++ means.port_if is_input name.now (means.declared (entries signals.now name.now))) }
{
    let entry = declared(signals, name);
    if entry.is_input == is_input {
        ports.push(make_port(alloc, name, entry)?)
    } else {
        Ok(())
    }
}

/// The ports with these names that are inputs, or those that are none, in the order of the names. Or want of memory.
pub fn ports_of(
    alloc: Global,
    signals: &Signals,
    is_input: bool,
    names: &[Text],
) -> Result<Ports, AllocError>
    ensures { IfOk result (λ ports. ports ≡ means.ports_from (entries signals.now) is_input names.now) }
{
    let mut ports = Ports::new(alloc);
    for name in names {
        add_port(alloc, signals, is_input, name, &mut ports)?;
    }
    Ok(ports)
}
