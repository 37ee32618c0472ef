// Where a translation's bytes come from.
ghost use Rattle.std.specs.Prelude.{◌≡◌, ◌^◌, ◌<◌, ◌≤◌, ℕ, Option};
ghost use Rattle.sv_source.specs.Loading.{Contents, LoadsTold, LoadsWithin, LoadCause};

use crate::{Items, Text};
use std::alloc::Global;

/// What a load of a file answers.
#[derive(Drop, Debug)]
pub enum Loaded {
    /// The bytes of the file.
    Bytes(Text),
    /// No file is there.
    Absent,
    /// The file has more bytes than the limit.
    TooLong,
    /// The device failed.
    Failed,
    /// Want of memory.
    Memory,
}

/// A place that files are read from, by path.
pub trait Files {
    /// What each path holds, where this is told. It never changes.
    ghost contents: { Self → Option Contents };

    /// How often a load has failed. It never falls.
    ghost faults: { Self → ℕ };

    /// The bytes of the file at the path, if there are at most `limit` of them.
    fn load(&mut self, alloc: Global, path: &[u8], limit: u64) -> Loaded
        requires { limit < 2 ^ 32 }
        // Where the contents are told, the answer is the path's bytes, or the reason why there are none.
        ensures answer { LoadsTold (contents self.old) path.now limit result }
        ensures within { LoadsWithin limit result }
        ensures same { contents self.new ≡ contents self.old }
        ensures later { faults self.old ≤ faults self.new }
        // It fails only where the count of faults rose.
        ensures cause { LoadCause result (faults self.old) (faults self.new) };
}

/// A file in memory.
#[derive(Drop, Debug)]
pub struct Entry {
    /// Its path.
    pub path: Text,
    /// Its bytes.
    pub bytes: Text,
}

/// Files in memory. Of entries with one path the last counts.
pub type Entries = Items<Entry>;
