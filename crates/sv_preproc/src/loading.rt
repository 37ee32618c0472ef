// Loads of files.
ghost use Rattle.std.specs.Prelude.{◌≡◌, ◌≤◌, ◌<◌, ◌^◌, ◌++◌, ◌+◌, ◌-◌, map, min, length, OnOk};
ghost use Rattle.sv_preproc.specs.Answers.{Cause, SearchReaches, FoundWithin};
ghost use Rattle.sv_preproc.specs.Code.{seen, Bounded};
ghost use Rattle.sv_preproc.specs.Searches as spec;

use crate::settings::ExpandFail;
use crate::state::{OpenFile, State};
use std::alloc::{AllocError, Global};
use sv_lexer::{lex, place_behind};
use sv_macro::stack::Stack;
use sv_source::{Files, Loaded, Place, Text};

/// What stands at the first of some paths that isn't absent.
#[derive(Drop, Debug)]
pub enum Found {
    /// A file, by its path and its bytes.
    File(Text, Text),
    /// All are absent.
    Absent,
    /// A file that has too many bytes.
    TooLong,
}

/// Loads the first of these paths that isn't absent.
pub fn load_first<F: Files>(
    alloc: Global,
    files: &mut F,
    paths: &[Text],
    limit: u64,
) -> Result<Found, ExpandFail>
    requires { limit < 2 ^ 32 }
    ensures reaches { SearchReaches (F.contents files.old) paths.now limit result }
    ensures within { FoundWithin limit result }
    ensures same { F.contents files.new ≡ F.contents files.old }
    ensures cause { Cause result (F.faults files.old) (F.faults files.new) }
{
    for path in paths {
        match files.load(alloc, path.as_bytes(), limit) {
            Loaded::Bytes(bytes) => return Ok(Found::File(path.copy(alloc)?, bytes)),
            Loaded::Absent => {}
            Loaded::TooLong => return Ok(Found::TooLong),
            Loaded::Failed => {
                return Err(ExpandFail::FileFault {
                    path: path.copy(alloc)?,
                });
            }
            Loaded::Memory => return Err(ExpandFail::Memory),
        }
    }
    Ok(Found::Absent)
}

impl State {
    /// The most bytes that the next file may have.
    pub fn room_left(&self) -> u64
        requires { self.now.loaded ≤ 2 ^ 26 }
        ensures { result ≡ spec.room_left (seen self.now) }
    {
        ((1 << 26) - self.loaded).min(1 << 24)
    }

    /// The tokens of a file come next, and then its end.
    pub fn open(
        &mut self,
        alloc: Global,
        top: bool,
        path: Text,
        bytes: &[u8],
    ) -> Result<(), AllocError>
        requires bounded { Bounded self.old }
        requires within { length bytes.now ≤ spec.room_left (seen self.old) }
        ensures state { OnOk result (seen self.new ≡ spec.opened top (seen self.old) (record { path = path; bytes = bytes.now })) }
        ensures calls { OnOk result (self.new.calls ≡ self.old.calls) }
    {
        let start = Place {
            file: self.names.len() as u32,
            line: 1,
            col: 1,
        };
        let tokens = lex(alloc, start.file, bytes)?;
        self.coming.push_file(alloc, tokens)?;
        self.files.push(OpenFile {
            path: path.copy(alloc)?,
            conditionals: Stack::new(alloc),
        })?;
        if top {
            self.ending = place_behind(start, bytes);
        }
        self.names.push(path)?;
        self.loaded += bytes.len() as u64;
        Ok(())
    }
}
