//! The lines of a trace.

ghost use Rattle.std.specs.Prelude.{◌≡◌, ◌++◌, map, reverse, IfOk, OnOk};
ghost use Rattle.stim_rows.specs.RowFiles as rows;
ghost use Rattle.stim_rows.specs.Slots as slots;
ghost use Rattle.stim_rows.specs.Lines as spec;

use crate::shape::{Port, Shape};
use b4_core::{Bit4, Trace, Vec4};
use std::alloc::{AllocError, Global};

fn digit(bit: Bit4) -> u8
    ensures { result ≡ rows.digit bit }
{
    match bit {
        Bit4::Zero => b'0',
        Bit4::One => b'1',
        Bit4::X => b'x',
        Bit4::Z => b'z',
    }
}

fn push_bits(text: &mut Vec<u8>, bits: &[Bit4]) -> Result<(), AllocError>
    ensures { OnOk result (text.new.items ≡ text.old.items ++ map rows.digit (reverse bits.now)) }
{
    for bit in bits.iter().rev() {
        text.push(digit(*bit))?;
    }
    Ok(())
}

// Appends what a valuation holds in the port's signal.
fn push_port(text: &mut Vec<u8>, port: &Port, valuation: &[Vec4]) -> Result<(), AllocError>
    ensures { OnOk result (text.new.items ≡ text.old.items ++ rows.vector_text (spec.held valuation.now port.now)) }
{
    match valuation.get(port.signal as usize) {
        None => Ok(()),
        Some(v) => push_bits(text, v.as_slice()),
    }
}

fn push_further(text: &mut Vec<u8>, ports: &[Port], valuation: &[Vec4]) -> Result<(), AllocError>
    ensures { OnOk result (text.new.items ≡ text.old.items ++ slots.behind 32 (map rows.vector_text (spec.shown ports.now valuation.now))) }
{
    for port in ports {
        text.push(b' ')?;
        push_port(text, port, valuation)?;
    }
    Ok(())
}

fn push_ports(text: &mut Vec<u8>, ports: &[Port], valuation: &[Vec4]) -> Result<(), AllocError>
    ensures { OnOk result (text.new.items ≡ text.old.items ++ slots.joined 32 (map rows.vector_text (spec.shown ports.now valuation.now))) }
{
    match ports.split_first() {
        None => Ok(()),
        Some((first, rest)) => {
            push_port(text, first, valuation)?;
            push_further(text, rest, valuation)
        }
    }
}

fn push_line(text: &mut Vec<u8>, outputs: &[Port], valuation: &[Vec4]) -> Result<(), AllocError>
    ensures { OnOk result (text.new.items ≡ text.old.items ++ rows.line_text (spec.shown outputs.now valuation.now)) }
{
    push_ports(text, outputs, valuation)?;
    text.push(b'\n')?;
    Ok(())
}

/// A line for each valuation of a trace: the bits of each output in port order, most significant first, one space between
/// outputs. `AllocError` where memory runs out.
pub fn lines(alloc: Global, shape: &Shape, trace: &Trace) -> Result<Vec<u8>, AllocError>
    ensures { IfOk result (λ text. text.items ≡ spec.lines_of shape.now.outputs trace.now) }
{
    let mut text = Vec::new(alloc);
    for valuation in trace.as_slice() {
        push_line(&mut text, shape.outputs.as_slice(), valuation.as_slice())?;
    }
    Ok(text)
}
