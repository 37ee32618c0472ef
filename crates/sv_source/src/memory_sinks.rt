// Sinks in memory, with room that is reserved when they are made.
ghost use Rattle.std.specs.Prelude.{◌≡◌, ◌+◌, ◌-◌, ◌^◌, ◌<◌, ◌≤◌, [], min, length, IfOk, vec_len, vec_capacity, Some};
ghost use Rattle.std.specs.List.{Contains};
ghost use Rattle.sv_source.specs.Putting.{Gains, PutCause, KeepsRoom};
ghost use Rattle.sv_source.specs.Memory.{TakesWhatFits, TakesNothing};

use crate::{Put, Sink};
use std::alloc::{AllocError, Global};
use std::marker::Model;

/// A sink in memory that tells its bytes and fails at chosen puts, or where its room is spent.
#[derive(Drop, Debug)]
pub struct MemorySink {
    bytes: Vec<u8>,
    spare: usize,
    fail: Vec<u64>,
    puts: u64,
    faults: u64,
}

impl Model for MemorySink {
    ghost use Rattle.std.specs.Prelude.{◌+◌, ◌≤◌, vec_len, vec_capacity};
    ghost use Rattle.sv_source.specs.Memory.{NumberedSink};

    ghost Value = { NumberedSink };

    ghost view = { λ s. record { bytes = s.bytes.items; spare = s.spare; fail = s.fail.items; puts = s.puts; faults = s.faults } };

    ghost invariant = { λ s. vec_len s.bytes + s.spare ≤ vec_capacity s.bytes };
}

impl MemorySink {
    /// An empty sink with room for so many bytes; the puts with the numbers in `fail`, counted from 1 and without
    /// those of an empty piece, fail and take nothing.
    pub fn new(alloc: Global, room: u64, fail: Vec<u64>) -> Result<MemorySink, AllocError>
        ensures { IfOk result (λ sink. sink ≡ record { bytes = []; spare = room; fail = fail.items; puts = 0; faults = 0 }) }
    {
        let spare = room as usize;
        Ok(MemorySink {
            bytes: Vec::with_capacity(alloc, spare)?,
            spare,
            fail,
            puts: 0,
            faults: 0,
        })
    }

    /// The bytes written so far.
    pub fn bytes(&self) -> &[u8]
        ensures { result.now ≡ self.now.bytes }
    {
        self.bytes.as_slice()
    }
}

/// A sink in memory that tells its bytes and its spare room, and fails only where the room is spent.
#[derive(Drop, Debug)]
pub struct SureSink {
    bytes: Vec<u8>,
    spare: usize,
    faults: u64,
}

impl Model for SureSink {
    ghost use Rattle.std.specs.Prelude.{◌+◌, ◌≤◌, vec_len, vec_capacity};
    ghost use Rattle.sv_source.specs.Memory.{RoomySink};

    ghost Value = { RoomySink };

    ghost view = { λ s. record { bytes = s.bytes.items; spare = s.spare; faults = s.faults } };

    ghost invariant = { λ s. vec_len s.bytes + s.spare ≤ vec_capacity s.bytes };
}

impl SureSink {
    /// An empty sink with room for so many bytes.
    pub fn new(alloc: Global, room: u64) -> Result<SureSink, AllocError>
        ensures { IfOk result (λ sink. sink ≡ record { bytes = []; spare = room; faults = 0 }) }
    {
        let spare = room as usize;
        Ok(SureSink {
            bytes: Vec::with_capacity(alloc, spare)?,
            spare,
            faults: 0,
        })
    }

    /// The bytes written so far.
    pub fn bytes(&self) -> &[u8]
        ensures { result.now ≡ self.now.bytes }
    {
        self.bytes.as_slice()
    }
}

// Appends what fits into the spare room, and takes it off that room.
fn append_front(bytes: &mut Vec<u8>, spare: &mut usize, piece: &[u8]) -> Put
    requires { vec_len bytes.old + spare.old ≤ vec_capacity bytes.old }
    ensures fits { TakesWhatFits bytes.old.items bytes.new.items spare.old spare.new piece.now result }
    ensures room { vec_len bytes.new + spare.new ≤ vec_capacity bytes.new }
{
    let count = piece.len().min(*spare);
    bytes.extend_from_slice(&piece[..count]).unwrap();
    *spare -= count;
    if count < piece.len() {
        Put::Failed
    } else {
        Put::Ok
    }
}

impl Sink for MemorySink {
    ghost written = { λ s. Some s.bytes };

    ghost faults = { λ s. s.faults };

    ghost spare = { λ _. 0 };

    #[tactic(auto, using(crate::proofs::Fronts::fits_gains))]
    fn put(&mut self, piece: &[u8]) -> Put
        ensures bytes { Gains (Some self.old.bytes) (Some self.new.bytes) piece.now result }
        ensures later { self.old.faults ≤ self.new.faults }
        ensures cause { PutCause result self.old.faults self.new.faults }
        ensures room { length piece.now ≤ 0 → KeepsRoom 0 0 (length piece.now) result }
        // At the numbered puts it takes nothing, and at every other put what fits.
        ensures numbered { 0 < length piece.now → Contains self.old.fail self.new.puts → TakesNothing self.old self.new result }
        ensures others { ¬ (Contains self.old.fail self.new.puts) → TakesWhatFits self.old.bytes self.new.bytes self.old.spare self.new.spare piece.now result }
        ensures puts { 0 < length piece.now → self.new.puts ≡ min (self.old.puts + 1) (2 ^ 64 - 1) }
        ensures unchanged { length piece.now ≡ 0 → self.new ≡ self.old }
        ensures fail { self.new.fail ≡ self.old.fail }
    {
        if piece.is_empty() {
            return Put::Ok;
        }
        self.puts = self.puts.saturating_add(1);
        if self.fail.contains(&self.puts) {
            self.faults = self.faults.saturating_add(1);
            return Put::Failed;
        }
        let put = append_front(&mut self.bytes, &mut self.spare, piece);
        if put == Put::Failed {
            self.faults = self.faults.saturating_add(1);
        }
        put
    }
}

impl Sink for SureSink {
    ghost written = { λ s. Some s.bytes };

    ghost faults = { λ s. s.faults };

    ghost spare = { λ s. s.spare };

    #[tactic(auto, using(crate::proofs::Fronts::fits_gains))]
    fn put(&mut self, piece: &[u8]) -> Put
        ensures bytes { Gains (Some self.old.bytes) (Some self.new.bytes) piece.now result }
        ensures later { self.old.faults ≤ self.new.faults }
        ensures cause { PutCause result self.old.faults self.new.faults }
        ensures room { length piece.now ≤ self.old.spare → KeepsRoom self.old.spare self.new.spare (length piece.now) result }
        ensures fits { TakesWhatFits self.old.bytes self.new.bytes self.old.spare self.new.spare piece.now result }
    {
        let put = append_front(&mut self.bytes, &mut self.spare, piece);
        if put == Put::Failed {
            self.faults = self.faults.saturating_add(1);
        }
        put
    }
}
