//! The rows in bytes of the right form.

ghost use Rattle.std.specs.Prelude.{◌≡◌, ◌<◌, ◌+◌, ◌^◌, map, reverse, take, drop, IfOk};
ghost use Rattle.stim_rows.specs.Reading as spec;

use crate::shape::Port;
use b4_core::{Bit4, Row, Rows, Vec4};
use std::alloc::{AllocError, Global};

fn bit_of(byte: u8) -> Bit4
    ensures { result ≡ spec.bit_of byte }
{
    match byte {
        b'0' => Bit4::Zero,
        b'1' => Bit4::One,
        b'x' => Bit4::X,
        _ => Bit4::Z,
    }
}

// The bits that some bytes stand for, the last byte first.
fn bits_of(alloc: Global, text: &[u8]) -> Result<Vec<Bit4>, AllocError>
    ensures { IfOk result (λ v. v.items ≡ map spec.bit_of (reverse text.now)) }
{
    text.iter().rev().map(|byte| bit_of(*byte)).collect(alloc)
}

fn vector_of(alloc: Global, text: &[u8]) -> Result<Vec4, AllocError>
    ensures { IfOk result (λ v. v ≡ spec.vector_in text.now) }
{
    Ok(Vec4::from_vec(bits_of(alloc, text)?))
}

// The first so many items, or all where there are fewer.
fn front(text: &[u8], count: usize) -> &[u8]
    ensures { result.now ≡ take count text.now }
{
    &text[..count.min(text.len())]
}

// What stands behind the first so many items.
fn behind(text: &[u8], count: usize) -> &[u8]
    ensures { result.now ≡ drop count text.now }
{
    &text[count.min(text.len())..]
}

/// The vectors in a line that begins these bytes.
fn row_of(alloc: Global, inputs: &[Port], line: &[u8]) -> Result<Row, AllocError>
    ensures { IfOk result (λ row. row ≡ spec.row_in inputs.now line.now) }
{
    let mut row = Row::new(alloc);
    let mut rest = line;
    for port in inputs {
        let width = port.two_state.len();
        row.push(vector_of(alloc, front(rest, width))?)?;
        rest = behind(behind(rest, width), 1);
    }
    Ok(row)
}

/// How many lines begin in so many bytes.
pub fn count_of(size: usize, bytes: usize) -> usize
    requires some { (size ≡ 0) → ⊥ }
    requires small { bytes + size < 2 ^ 64 }
    ensures { result ≡ spec.count_of size bytes }
{
    (bytes + (size - 1)) / size
}

/// So many rows, in lines of the same size.
pub fn rows_of(
    alloc: Global,
    count: usize,
    inputs: &[Port],
    size: usize,
    bytes: &[u8],
) -> Result<Rows, AllocError>
    ensures { IfOk result (λ rows. rows ≡ spec.rows_in count inputs.now size bytes.now) }
{
    let mut rows = Rows::new(alloc);
    let mut rest = bytes;
    while rows.len() < count {
        rows.push(row_of(alloc, inputs, rest)?)?;
        rest = behind(rest, size);
    }
    Ok(rows)
}
