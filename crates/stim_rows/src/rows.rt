//! Row files, read.

ghost use Rattle.std.specs.Prelude.{◌<◌, ◌-◌, ◌^◌, length};
ghost use Rattle.stim_rows.specs.Departures.{RowsGive};

use crate::departures::{departure, departure_refusal, too_many};
use crate::reading::{count_of, rows_of};
use crate::shape::Shape;
use crate::slots::row_slots;
use b4_core::Rows;
use std::alloc::Global;
use sv_source::Fail;

/// Rows of so many bits in all signals together are the most that are taken.
pub const ROW_LIMIT: u64 = 268_435_456;

/// The rows of a row file, whose number among the files is `file`. A line is a row: the bits of each input in port order,
/// most significant first, with one space between inputs, ended by a newline, which the last line may lack
/// where it isn't empty. A port has as many bits as marks.
///
/// Refused by rule 801 at the first byte that can't stand where it does, or behind the last byte where the file ends within a
/// row, with the name of the input that is expected there, or `<line>` where the line should end; by rule 802 where the rows
/// times `shape.bits` pass 2^28.
pub fn read_rows(alloc: Global, shape: &Shape, file: u32, bytes: &[u8]) -> Result<Rows, Fail>
    requires { length bytes.now < 2 ^ 32 - 1 }
    ensures { RowsGive shape.now file bytes.now result }
{
    let inputs = shape.inputs.as_slice();
    let line = row_slots(alloc, inputs)?;
    let slots = line.as_slice();
    let size = slots.len();
    if let Some(at) = departure(slots, bytes) {
        return Err(departure_refusal(alloc, shape, size, file, at)?.into());
    }
    let count = count_of(size, bytes.len());
    if (count as u64).saturating_mul(shape.bits) > ROW_LIMIT {
        return Err(too_many(alloc, file)?.into());
    }
    Ok(rows_of(alloc, count, inputs, size, bytes)?)
}
