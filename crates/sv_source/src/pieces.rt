// Bytes put on a sink in several pieces.
ghost use Rattle.std.specs.Prelude.{◌≤◌, length, decimal};
ghost use Rattle.std.specs.List.{flat_map};
ghost use Rattle.sv_source.specs.Putting.{Gains, PutCause, KeepsRoom};

use crate::{Put, Sink};
use itoa::Buffer;

/// The length of a piece, in bytes.
pub const PIECE: usize = 512;

/// Puts the bytes in pieces of 512, the last one shorter, up to the first put that fails. It takes no memory.
pub fn put_all<S: Sink>(sink: &mut S, bytes: &[u8]) -> Put
    ensures bytes { Gains (S.written sink.old) (S.written sink.new) bytes.now result }
    ensures later { S.faults sink.old ≤ S.faults sink.new }
    ensures cause { PutCause result (S.faults sink.old) (S.faults sink.new) }
    ensures room { length bytes.now ≤ S.spare sink.old → KeepsRoom (S.spare sink.old) (S.spare sink.new) (length bytes.now) result }
{
    let mut rest = bytes;
    while !rest.is_empty() {
        let (piece, after) = rest.split_at(rest.len().min(PIECE));
        match sink.put(piece) {
            Put::Ok => rest = after,
            Put::Failed => return Put::Failed,
        }
    }
    Put::Ok
}

/// Puts the parts one after another, up to the first put that fails. It takes no memory.
pub fn put_parts<S: Sink>(sink: &mut S, parts: &[&[u8]]) -> Put
    ensures bytes { Gains (S.written sink.old) (S.written sink.new) (flat_map (λ part. part.now) parts.now) result }
    ensures later { S.faults sink.old ≤ S.faults sink.new }
    ensures cause { PutCause result (S.faults sink.old) (S.faults sink.new) }
    ensures room { length (flat_map (λ part. part.now) parts.now) ≤ S.spare sink.old → KeepsRoom (S.spare sink.old) (S.spare sink.new) (length (flat_map (λ part. part.now) parts.now)) result }
{
    for part in parts {
        match put_all(sink, part) {
            Put::Ok => {}
            Put::Failed => return Put::Failed,
        }
    }
    Put::Ok
}

/// Puts the number in decimal. It takes no memory.
pub fn put_number<S: Sink>(sink: &mut S, number: u64) -> Put
    ensures bytes { Gains (S.written sink.old) (S.written sink.new) (decimal number) result }
    ensures later { S.faults sink.old ≤ S.faults sink.new }
    ensures cause { PutCause result (S.faults sink.old) (S.faults sink.new) }
    ensures room { length (decimal number) ≤ S.spare sink.old → KeepsRoom (S.spare sink.old) (S.spare sink.new) (length (decimal number)) result }
{
    put_all(sink, Buffer::new().format(number).as_bytes())
}
