// Files in memory.
ghost use Rattle.std.specs.Prelude.{◌≡◌, ◌+◌, ◌-◌, ◌^◌, ◌<◌, ◌≤◌, min};
ghost use Rattle.std.specs.Option.{option_copied};
ghost use Rattle.sv_source.specs.Loading.{Loads, LoadsTold, LoadsWithin, LoadCause};
ghost use Rattle.sv_source.specs.Memory.{held_in, FailsAt};

use crate::{Entries, Entry, Files, Loaded, Text};
use std::alloc::Global;
use std::marker::Model;

/// Files in memory that tell what they hold and fail at chosen loads.
#[derive(Drop, Debug)]
pub struct MemoryFiles {
    entries: Entries,
    fail: Vec<u64>,
    loads: u64,
    faults: u64,
}

impl Model for MemoryFiles {
    ghost use Rattle.sv_source.specs.Memory.{NumberedFiles};

    ghost Value = { NumberedFiles };

    ghost view = { λ s. record { entries = s.entries; fail = s.fail.items; loads = s.loads; faults = s.faults } };
}

impl MemoryFiles {
    /// These files; the loads with the numbers in `fail`, counted from 1, fail. It takes no memory.
    pub fn new(entries: Entries, fail: Vec<u64>) -> MemoryFiles
        ensures { result ≡ record { entries = entries; fail = fail.items; loads = 0; faults = 0 } }
    {
        MemoryFiles {
            entries,
            fail,
            loads: 0,
            faults: 0,
        }
    }
}

/// Files in memory that tell what they hold and never fail.
#[derive(Drop, Debug)]
pub struct SureFiles {
    entries: Entries,
}

impl Model for SureFiles {
    ghost use Rattle.std.specs.Prelude.{List};
    ghost use Rattle.sv_source.specs.declared.files.Entry.{Entry};

    ghost Value = { List Entry };

    ghost view = { λ s. s.entries };
}

impl SureFiles {
    /// These files. It takes no memory.
    pub fn new(entries: Entries) -> SureFiles
        ensures { result ≡ entries }
    {
        SureFiles { entries }
    }
}

// The last entry of the path.
fn find_last<'a>(entries: &'a Entries, path: &[u8]) -> Option<&'a Text>
    ensures { option_copied result ≡ held_in entries.now path.now }
{
    let entry = entries
        .as_slice()
        .iter()
        .rev()
        .find(|entry| entry.path.as_bytes() == path)?;
    Some(&entry.bytes)
}

fn load_entry(alloc: Global, entries: &Entries, path: &[u8], limit: u64) -> Loaded
    ensures answer { Loads (held_in entries.now path.now) limit result }
    ensures no_fault { result ≡ Loaded.Failed → ⊥ }
{
    let Some(text) = find_last(entries, path) else {
        return Loaded::Absent;
    };
    if text.len() as u64 > limit {
        return Loaded::TooLong;
    }
    match text.copy(alloc) {
        Ok(copy) => Loaded::Bytes(copy),
        Err(_) => Loaded::Memory,
    }
}

impl Files for MemoryFiles {
    ghost use Rattle.std.specs.Prelude.{Some};

    ghost contents = { λ s. Some (held_in s.entries) };

    ghost faults = { λ s. s.faults };

    fn load(&mut self, alloc: Global, path: &[u8], limit: u64) -> Loaded
        requires { limit < 2 ^ 32 }
        ensures answer { Loads (held_in self.old.entries path.now) limit result }
        ensures within { LoadsWithin limit result }
        ensures later { self.old.faults ≤ self.new.faults }
        ensures cause { LoadCause result self.old.faults self.new.faults }
        // It fails just at the loads that are numbered.
        ensures numbered { FailsAt self.old.fail self.new.loads result }
        ensures loads { self.new.loads ≡ min (self.old.loads + 1) (2 ^ 64 - 1) }
        ensures same { self.new ≡ record self.old { loads = self.new.loads; faults = self.new.faults } }
    {
        self.loads = self.loads.saturating_add(1);
        if self.fail.contains(&self.loads) {
            self.faults = self.faults.saturating_add(1);
            return Loaded::Failed;
        }
        load_entry(alloc, &self.entries, path, limit)
    }
}

impl Files for SureFiles {
    ghost use Rattle.std.specs.Prelude.{Some};

    ghost contents = { λ s. Some (held_in s) };

    ghost faults = { λ _. 0 };

    fn load(&mut self, alloc: Global, path: &[u8], limit: u64) -> Loaded {
        load_entry(alloc, &self.entries, path, limit)
    }
}
